//! One event at a subsystem, entered from a seat. This module alone adds to the history and to the log of a seat.

ghost use Rattle.std.specs.Prelude.{◌≡◌, ◌≢◌, ◌⊎◌, ◌+◌, ◌-◌, ◌^◌, ◌<◌, ◌≤◌, length, min, vec_capacity, vec_len, Err, IfErr, OnErr, OnOk, true};
ghost use Rattle.chan_model.specs.declared.fault.Fault.TheVariants as fault_spec;
ghost use Rattle.event_log.specs.Logs.{IsKept};
ghost use Rattle.subsystem.specs.Keeping.{StaysSetUp, all_serials, answer_of};
ghost use Rattle.core_lock.specs.Entering.{IsEntered, core_of, starved_after};
ghost use Rattle.glance_directory.specs.Cells.{cells_of, shown};

use crate::locked::Seat;
use crate::naming::{Entries, MachineBrand};
use chan_events::event::Event;
use chan_model::fault::Fault;
use event_log::logs::Log;
use glance_cell::cell::Writer;
use glance_directory::seen_serials::{publish, raise};
use glance_directory::touching::{touched_by, touches};
use memory::{Supply, ensure_room};
use path_select::PathChoice;
use std::sync::ledger::Book;
use subsystem::subsystem::Subsystem;

/// By which seat each entry of a history was entered, and the ledger of how many each seat entered.
#[derive(Drop)]
pub(crate) struct EntrySeats<J: MachineBrand> {
    pub by: Vec<u16>,
    pub entries: Book<Entries<J>>,
}

/// Makes room for one entry, beside a history and in the log of a seat.
#[inline(always)]
fn make_room<S: Supply>(supply: &mut S, by: &mut Vec<u16>, log: &mut Log) -> Result<(), Fault>
    ensures refusal { IfErr result (λ f. f ≡ fault_spec.NoMemory) }
    ensures exhausted { OnErr result (min (vec_capacity by.old - vec_len by.old) log.old.room ≡ 0) }
    ensures made { OnOk result ((vec_len by.new < vec_capacity by.new) × (1 ≤ log.new.room)) }
    ensures items { by.new.items ≡ by.old.items }
    ensures len { vec_len by.new ≡ vec_len by.old }
    ensures capacity { vec_capacity by.old ≤ vec_capacity by.new }
    ensures log { IsKept log.old log.new }
    ensures reply { log.new.reply ≡ log.old.reply }
    ensures unrefused { OnOk result (S.refused supply.new ≡ S.refused supply.old) }
    ensures memory { OnErr result (S.refused supply.new ≡ true) }
{
    if ensure_room(supply, by, 1).is_err() || log.make_room_with(supply).is_err() {
        return Err(Fault::NoMemory);
    }
    Ok(())
}

/// The same answer, which is counted where it is a refusal for want of memory.
#[inline(always)]
fn counted(answer: Result<(), Fault>, starved: &mut u64) -> Result<(), Fault>
    ensures same { result ≡ answer }
    ensures starved { starved.new ≡ starved_after answer starved.old }
{
    if let Err(Fault::NoMemory) = answer {
        *starved = starved.saturating_add(1);
    }
    answer
}

/// One step at a subsystem, entered from a seat: its entry in the history with the number of its seat beside it, and in the
/// seat's log, and the serials that it changed in the glance cells.
#[inline(always)]
pub(crate) fn keep_entry<S: Supply, J: MachineBrand, P: PathChoice + Drop>(
    subsystem: &mut Subsystem<P>,
    entry_seats: &mut EntrySeats<J>,
    writers: &mut Vec<Writer>,
    supply: &mut S,
    seat: &mut Seat<J>,
    event: &Event,
) -> Result<(), Fault>
    requires beside { length entry_seats.old.by.items ≡ length subsystem.old.history }
    requires entries { entry_seats.old.entries.total ≡ length subsystem.old.history }
    requires shown { shown writers.old.items ≡ all_serials subsystem.old.state }
    ensures beside { length entry_seats.new.by.items ≡ length subsystem.new.history }
    ensures entries { entry_seats.new.entries.total ≡ length subsystem.new.history }
    ensures shown { shown writers.new.items ≡ all_serials subsystem.new.state }
    ensures cells { cells_of writers.new.items ≡ cells_of writers.old.items }
    ensures set_up { StaysSetUp subsystem.old.state subsystem.new.state }
    ensures entered { IsEntered P.picks (core_of subsystem.old entry_seats.old.by) seat.old event.now (answer_of result subsystem.new.history)
        (core_of subsystem.new entry_seats.new.by) seat.new }
    ensures unrefused { result ≢ Err fault_spec.NoMemory → S.refused supply.new ≡ S.refused supply.old }
    ensures memory { result ≡ Err fault_spec.NoMemory →
        (S.refused supply.new ≡ true) ⊎ (2 ^ 62 ≤ length subsystem.old.history + 1) }
{
    let touched = touched_by(subsystem, event);
    counted(
        make_room(supply, &mut entry_seats.by, &mut seat.log),
        &mut seat.starved,
    )?;
    touches();
    counted(subsystem.perform_with(supply, event), &mut seat.starved)?;
    publish(writers, subsystem, touched);
    entry_seats.entries.add(&mut seat.share, 1);
    entry_seats.by.push_reserved(seat.number);
    raise(&mut seat.seen_serials, &seat.directory, event, subsystem);
    subsystem.add_last(&mut seat.log);
    Ok(())
}
