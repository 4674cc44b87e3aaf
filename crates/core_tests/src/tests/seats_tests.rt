//! Seats: how many there are, what they see, and that all of them are given back.

ghost use Rattle.std.specs.Prelude.{◌≡◌, None};

use crate::tests::machines::{WORD, accepts, accepts_all, enable, tsch};
use crate::tests::racers::{Racer, Task, add_racer};
use crate::tests::scenarios::{Scenario, goes};
use chan_events::event::{Event, Instruction};
use chan_events::reply::Reply;
use chan_model::answer::Answer;
use chan_model::fault::Fault;
use chan_model::names::Cpu;
use core_lock::locked::{Core, MOST_SEATS, Seat};
use core_lock::naming::MachineBrand;
use path_select::Rotating;

/// Makes a status and clears it from one seat.
fn makes_and_clears<J: MachineBrand>(core: &mut Core<J, Rotating>, seat: &mut Seat<J>) -> bool {
    let Some(cpu) = Cpu::new(0) else {
        return false;
    };
    let csch = Instruction::Csch { subchannel: WORD };
    accepts(core, seat, cpu, &[enable(WORD, false)])
        && accepts_all(core, seat, &[Event::PathDown { chpid: 0x10 }])
        && accepts(core, seat, cpu, &[csch])
        && accepts_all(core, seat, &[Event::Choose { subchannel: WORD }])
        && accepts(core, seat, cpu, &[tsch(WORD)])
}

/// What a seat sees of the subchannel.
pub fn seen<J: MachineBrand>(seat: &mut Seat<J>) -> Option<(u64, u64)>
    requires { seat.old.value.owed ≡ None }
    ensures { seat.new.value.owed ≡ None }
{
    let glance = seat.glance(WORD).ok()?;
    Some((glance.made, glance.cleared))
}

/// Whether a seat sees what another makes and clears, and no subchannel that is not there.
fn sees_other<J: MachineBrand>(
    core: &mut Core<J, Rotating>,
    maker: &mut Seat<J>,
    looker: &mut Racer<J>,
) -> bool {
    let before = seen(&mut looker.seat);
    let done = makes_and_clears(core, maker);
    let after = seen(&mut looker.seat);
    let unknown = looker.seat.glance(WORD + 1);
    before == Some((0, 0))
        && done
        && after == Some((1, 1))
        && matches!(unknown, Err(Fault::NoSuchSubchannel))
}

/// A seat sees what another made and cleared.
pub fn sees<J: MachineBrand>(
    core: &mut Core<J, Rotating>,
    maker: &mut Seat<J>,
    racers: &mut Vec<Racer<J>>,
) -> bool {
    if !add_racer(core, racers, Task::Looks) {
        return false;
    }
    match racers.get_mut(0) {
        Some(looker) => sees_other(core, maker, looker),
        None => false,
    }
}

/// Whether the reply that is lent is condition code 3.
fn has_code_three<J: MachineBrand>(core: &Core<J, Rotating>) -> bool {
    match core.subsystem().last_reply() {
        Some(reply) => matches!(&reply.own(), Reply::Code(Answer::Three)),
        None => false,
    }
}

/// The reply of an event that is accepted is lent from then on, also where another is refused.
pub fn answers<J: MachineBrand>(core: &mut Core<J, Rotating>, seat: &mut Seat<J>) -> bool {
    let Some(cpu) = Cpu::new(0) else {
        return false;
    };
    let none = core.subsystem().last_reply().is_none();
    let instruction = tsch(WORD);
    let tested = core.perform(seat, &Event::Execute { cpu, instruction });
    let replied = tested.is_ok() && has_code_three(core);
    let subchannel = WORD + 1;
    let refusal = core.perform(seat, &Event::Choose { subchannel });
    none && replied && matches!(refusal, Err(Fault::NoSuchSubchannel)) && has_code_three(core)
}

/// One seat more is made, and given up.
pub fn leaves_out<J: MachineBrand>(core: &mut Core<J, Rotating>) -> bool {
    core.seat().is_ok()
}

/// As many seats are made as there can be, and one more is refused.
pub fn fills<J: MachineBrand>(core: &mut Core<J, Rotating>, racers: &mut Vec<Racer<J>>) -> bool {
    for _ in 1..MOST_SEATS {
        if !add_racer(core, racers, Task::Looks) {
            return false;
        }
    }
    matches!(core.seat().err(), Some(Fault::NotNow))
}

#[test]
fn one_seat_sees_what_another_made_and_cleared(rt: HostRuntime) {
    assert!(rt; goes(&rt, rt.alloc(), Scenario::Sees));
}

#[test]
fn the_last_reply_is_lent_and_stays_where_another_event_is_refused(rt: HostRuntime) {
    assert!(rt; goes(&rt, rt.alloc(), Scenario::Answers));
}

#[test]
fn a_seat_left_out_is_told(rt: HostRuntime) {
    assert!(rt; goes(&rt, rt.alloc(), Scenario::LeavesOut));
}

#[test]
fn no_seat_follows_the_1024th(rt: HostRuntime) {
    assert!(rt; goes(&rt, rt.alloc(), Scenario::Fills));
}
