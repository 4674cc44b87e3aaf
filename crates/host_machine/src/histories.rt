//! The entries that are kept, as text.

ghost use Rattle.std.specs.Prelude.{◌≡◌, length, pos, slice_get};
ghost use Rattle.event_lines.specs.EventLines.{event_text};
ghost use Rattle.host_machine.specs.Histories as spec;
ghost use Rattle.host_machine.specs.Histories.{Forgets, HasForgotten, TellsEntry};
ghost use Rattle.host_machine.specs.Lines.{Tells};
ghost use Rattle.host_machine.specs.Looks.{Shows};
ghost use Rattle.script_text.specs.Text.{reply_text};

use crate::answers::{AT_OTHER_STAGE, BAD_ARGUMENT};
use crate::host_machine::HostMachine;
use crate::lines::ToldLine;
use crate::running::Running;
use crate::told::Told;
use chan_events::event::Event;
use chan_events::reply::Reply;
use event_lines::putting::put_event;
use script_text::put_reply;

/// The line of an event is written into a room, as far as it fits: how many bytes.
fn tell_event(event: &Event, room: &mut [u8]) -> usize
    ensures { Tells (event_text event.now) room.old room.new result }
{
    let mut told = Told::new();
    let _whole = put_event(&mut told, event);
    told.write(room)
}

/// What is printed of a reply is written into a room, as far as it fits: how many bytes.
fn tell_reply(reply: &Reply, room: &mut [u8]) -> usize
    ensures { Tells (reply_text reply.now) room.old room.new result }
{
    let mut told = Told::new();
    let _whole = put_reply(&mut told, reply);
    told.write(room)
}

/// There is no entry of this number, or none is kept yet.
fn tell_none(number: i32) -> ToldLine
    ensures number { result.number ≡ number }
    ensures written { result.written ≡ 0 }
{
    ToldLine { number, written: 0 }
}

impl Running {
    fn history_line(&self, index: u64, room: &mut [u8]) -> ToldLine
        ensures { TellsEntry spec.line_of (slice_get self.now.subsystem.kept index) result.number result.written room.old room.new }
    {
        match self.subsystem().history().get(index as usize) {
            Some(entry) => ToldLine {
                number: 0,
                written: tell_event(&entry.event, room),
            },
            None => tell_none(BAD_ARGUMENT),
        }
    }

    fn history_reply(&self, index: u64, room: &mut [u8]) -> ToldLine
        ensures { TellsEntry spec.reply_of (slice_get self.now.subsystem.kept index) result.number result.written room.old room.new }
    {
        match self.subsystem().history().get(index as usize) {
            Some(entry) => ToldLine {
                number: 0,
                written: tell_reply(&entry.reply, room),
            },
            None => tell_none(BAD_ARGUMENT),
        }
    }
}

impl HostMachine {
    /// How many entries are kept; `AT_OTHER_STAGE` where the machine does not run yet.
    pub fn history_count(&self, count: &mut u64) -> i32
        ensures { Shows (λ r number. (number ≡ pos 0) × (count.new ≡ length r.subsystem.kept)) (count.new ≡ count.old) self.now result }
    {
        match self {
            HostMachine::SettingUp(_) => AT_OTHER_STAGE,
            HostMachine::Runs(running) => {
                *count = running.subsystem().history().len() as u64;
                0
            }
        }
    }

    /// The line of a script that asks for the event of the entry of this number, from 0, as `put_event` puts it, is written into the
    /// room, as far as it fits: 590 bytes are enough. `BAD_ARGUMENT` where no such entry is kept, `AT_OTHER_STAGE` where the machine
    /// does not run yet.
    pub fn history_line(&self, index: u64, room: &mut [u8]) -> ToldLine
        ensures { Shows (λ r number. TellsEntry spec.line_of (slice_get r.subsystem.kept index) number result.written room.old room.new) ((room.new ≡ room.old) × (result.written ≡ 0)) self.now result.number }
    {
        match self {
            HostMachine::SettingUp(_) => tell_none(AT_OTHER_STAGE),
            HostMachine::Runs(running) => running.history_line(index, room),
        }
    }

    /// What `perform_line` wrote of the reply of that entry, or would have written: 773 bytes are enough.
    pub fn history_reply(&self, index: u64, room: &mut [u8]) -> ToldLine
        ensures { Shows (λ r number. TellsEntry spec.reply_of (slice_get r.subsystem.kept index) number result.written room.old room.new) ((room.new ≡ room.old) × (result.written ≡ 0)) self.now result.number }
    {
        match self {
            HostMachine::SettingUp(_) => tell_none(AT_OTHER_STAGE),
            HostMachine::Runs(running) => running.history_reply(index, room),
        }
    }

    /// Lets go the entries that are kept. A machine that is begun anew and is handed in their lines stands where this one does only if
    /// it was handed in those that were let go before.
    pub fn forget(&mut self) -> i32
        ensures { Forgets self.old result self.new }
    {
        match self {
            HostMachine::SettingUp(_) => AT_OTHER_STAGE,
            HostMachine::Runs(running) => {
                running.forget();
                0
            }
        }
    }
}
