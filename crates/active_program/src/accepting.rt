//! What a subchannel does as its program is accepted by the device.

ghost use Rattle.std.specs.Prelude.{◌≡◌, ◌<◌, ◌^◌, is_some};
ghost use Rattle.chan_model.specs.HoldTable.{hold_takes};
ghost use Rattle.chan_model.specs.Lent.{lent_up, plain_down};
ghost use Rattle.active_program.specs.Sent.{outcome_with};
ghost use Rattle.subchannel_model.specs.Causes.{with_cause};
ghost use Rattle.subchannel_model.specs.Accept as on_accept;
ghost use Rattle.subchannel_model.specs.Outcomes as outcomes;
ghost use Rattle.subchannel_model.specs.Suspension as suspension;
ghost use Rattle.subchannel_model.specs.declared.cause.StatusCause.TheVariants as cause;
ghost use Rattle.active_program.specs.Stepping.{subchannel_stepped};
ghost use Rattle.functions.specs.Unwired.{with_state};
ghost use Rattle.chan_model.specs.declared.signal.Down.TheVariants as down;
ghost use Rattle.data_move.specs.Commands as transfer_spec;

use crate::answers::{ignored, let_go, quiet, take_by};
use crate::intermediate::{interrupt, suspend};
use crate::met::Met;
use crate::sent::SentDown;
use ccw_walk::Walk;
use ccw_walk::check::Check;
use ccw_walk::program::Advance;
use chan_model::hold_state::HoldPhase;
use chan_model::lent::{LentUp, PlainDown};
use chan_model::names::Path;
use chan_model::signal::Down;
use data_move::commands::{command_of, room_to_tell};
use data_move::transfer::Transfer;
use functions::{PackedState, Rest};
use hold::Hold;
use scsw_irb::bits::{
    DEVICE_ACTIVE, HALT_PENDING, RESUME_PENDING, START_PENDING, SUBCHANNEL_ACTIVE, SUSPENDED,
};
use scsw_irb::words::ScswWords;
use status::make_pending;
use storage_keys::MainStorage;
use subchannel_model::cause::StatusCause;
use subchannel_model::state::{ActiveProgram, Program, ProgramPosition};

/// Where the program that was offered goes on: the number of its start, and the path that its device is reached by.
#[derive(Clone, Copy)]
struct AcceptedOffer {
    number: u64,
    path: Path,
}

/// What the first block of a program came to, and where its walk stands then.
#[derive(Clone, Copy)]
struct FirstBlock {
    walk: Walk,
    advance: Option<Advance>,
}

/// A program that waits, at its beginning.
fn from_start(program: Program) -> ProgramPosition
    ensures { result ≡ on_accept.position_at_start program }
{
    ProgramPosition {
        program,
        walk: Walk::start(program.orb),
        count: 0,
    }
}

fn suspended_as(suspended: Option<ProgramPosition>, start: u64) -> Option<ProgramPosition>
    ensures { result ≡ on_accept.suspended_position suspended start }
{
    match suspended {
        Some(standing) if standing.program.start == start => Some(standing),
        _ => None,
    }
}

fn standing_as(
    waiting: Option<Program>,
    suspended: Option<ProgramPosition>,
    start: u64,
) -> Option<ProgramPosition>
    ensures { result ≡ on_accept.position_of_start waiting suspended start }
{
    match waiting {
        Some(program) if program.start == start => Some(from_start(program)),
        _ => suspended_as(suspended, start),
    }
}

/// The program that was offered, where it is not over.
fn standing(state: &PackedState) -> Option<ProgramPosition>
    ensures { result ≡ on_accept.offered_position state.now.state }
{
    let rest = state.rest();
    standing_as(rest.waiting, rest.suspended, rest.offered)
}

fn is_suspended_as(rest: &Rest, start: u64) -> bool
    ensures { result ≡ is_some (on_accept.suspended_position rest.now.suspended start) }
{
    match &rest.suspended {
        Some(standing) => standing.program.start == start,
        None => false,
    }
}

/// Whether the program that was offered is not over.
fn is_standing(rest: &Rest) -> bool
    ensures { result ≡ is_some (on_accept.position_of_start rest.now.waiting rest.now.suspended rest.now.offered) }
{
    match &rest.waiting {
        Some(program) if program.start == rest.offered => true,
        _ => is_suspended_as(rest, rest.offered),
    }
}

/// Whether a halt is pending.
fn is_halt_pending(scsw: &ScswWords) -> bool
    ensures { result ≡ scsw.now.activity.halt_pending }
{
    scsw.any(HALT_PENDING)
}

/// Whether the program that was offered takes the device.
fn goes_ahead(state: &PackedState) -> bool
    ensures { result ≡ on_accept.takes_device state.now.state }
{
    is_standing(state.rest()) && !is_halt_pending(state.scsw())
}

/// Start pending, resume pending and suspended are turned off; subchannel active and device active are turned on.
fn work(scsw: &mut ScswWords)
    ensures { scsw.new ≡ on_accept.working_scsw scsw.old }
{
    scsw.change(
        RESUME_PENDING | START_PENDING | SUSPENDED,
        SUBCHANNEL_ACTIVE | DEVICE_ACTIVE,
    );
}

fn take_over(state: &mut PackedState, program: Program, transfer: Transfer)
    ensures { state.new ≡ with_state state.old (on_accept.with_program_at_work state.old.state program transfer) }
{
    work(state.scsw_mut());
    let rest = state.rest_mut();
    rest.waiting = None;
    if rest.suspended.is_some() {
        rest.suspended = None;
    }
    rest.begun = Some(ActiveProgram {
        program,
        primary_shown: false,
        transfer,
    });
}

/// The room for the first bytes of a program's first command is found, and its device is told of both.
fn tell_first<M: MainStorage>(storage: &M, begun: &mut ActiveProgram, number: u64) -> PlainDown
    ensures begun { begun.new ≡ record begun.old { transfer = (transfer_spec.begun_with_room (M.contents storage.now) begun.old.transfer).transfer } }
    ensures signal { plain_down result ≡ down.Command number begun.new.transfer.command begun.new.transfer.code (transfer_spec.begun_with_room (M.contents storage.now) begun.old.transfer).room }
{
    let room = room_to_tell(storage, &mut begun.transfer);
    PlainDown::of(Down::Command {
        number,
        command: begun.transfer.command,
        code: begun.transfer.code,
        room,
    })
}

/// The program takes the device with its first command, of which the device is told.
fn send_first<M: MainStorage>(
    storage: &M,
    state: &mut PackedState,
    offer: AcceptedOffer,
    program: Program,
    first: Transfer,
    sent: &mut SentDown,
) -> Met
    requires { state.old.state.serials.made < 2 ^ 63 }
    ensures step { subchannel_stepped state.new.state (outcome_with result sent.new) ≡ on_accept.sends_first_command state.old.state offer.path offer.number program (transfer_spec.begun_with_room (M.contents storage.now) first) }
    ensures setup { state.new.setup ≡ state.old.setup }
{
    take_over(state, program, first);
    if let Some(begun) = &mut state.rest_mut().begun {
        let signal = tell_first(storage, begun, offer.number);
        sent.put(offer.path, &signal.lend());
    }
    interrupt(state);
    Met::Taken
}

/// The program is suspended before its first command.
#[inline(never)]
fn suspend_first(
    state: &mut PackedState,
    standing: &ProgramPosition,
    walk: Walk,
    sent: &mut SentDown,
) -> Met
    requires { state.old.state.serials.made < 2 ^ 63 }
    ensures step { subchannel_stepped state.new.state (outcome_with result sent.new) ≡
        outcomes.device_released (suspension.program_suspended state.old.state standing.now.program walk standing.now.count) }
    ensures setup { state.new.setup ≡ state.old.setup }
{
    suspend(state, standing.program, walk, standing.count);
    let_go(state, sent)
}

/// The program ends with a check before its first command.
#[inline(never)]
fn check_first(
    state: &mut PackedState,
    tried: u32,
    check: Check,
    count: u16,
    sent: &mut SentDown,
) -> Met
    requires { state.old.state.serials.made < 2 ^ 63 }
    ensures step { subchannel_stepped state.new.state (outcome_with result sent.new) ≡
        outcomes.device_released (with_cause state.old.state (cause.FetchFault tried check count)) }
    ensures setup { state.new.setup ≡ state.old.setup }
{
    make_pending(
        state,
        &StatusCause::FetchFault {
            tried,
            check,
            count,
        },
    );
    let_go(state, sent)
}

/// The program begins by what its first block came to.
fn begin_as<M: MainStorage>(
    storage: &M,
    state: &mut PackedState,
    offer: AcceptedOffer,
    standing: &ProgramPosition,
    first: FirstBlock,
    sent: &mut SentDown,
) -> Met
    requires { state.old.state.serials.made < 2 ^ 63 }
    ensures step { subchannel_stepped state.new.state (outcome_with result sent.new) ≡
        on_accept.first_ccw_outcome (M.contents storage.now) state.old.state offer.path offer.number standing.now first.walk
        (transfer_spec.command_begins first.walk 1 first.advance) }
    ensures setup { state.new.setup ≡ state.old.setup }
{
    let walk = first.walk;
    match first.advance {
        Some(Advance::Takes(ccw)) => {
            let command = command_of(walk, 1, ccw);
            send_first(storage, state, offer, standing.program, command, sent)
        }
        Some(Advance::Suspends) => suspend_first(state, standing, walk, sent),
        Some(Advance::Stops(check)) => {
            check_first(state, walk.tried(), check, standing.count, sent)
        }
        None => check_first(state, walk.tried(), Check::Program, standing.count, sent),
    }
}

fn begin_with<M: MainStorage>(
    storage: &M,
    state: &mut PackedState,
    offer: AcceptedOffer,
    standing: &ProgramPosition,
    sent: &mut SentDown,
) -> Met
    requires { state.old.state.serials.made < 2 ^ 63 }
    ensures step { subchannel_stepped state.new.state (outcome_with result sent.new) ≡ on_accept.begins_with (M.contents storage.now) state.old.state offer.path offer.number standing.now (transfer_spec.first_command (M.contents storage.now) standing.now.walk) }
    ensures setup { state.new.setup ≡ state.old.setup }
{
    let mut walk = standing.walk;
    let advance = walk.advance(storage);
    let first = FirstBlock { walk, advance };
    begin_as(storage, state, offer, standing, first, sent)
}

fn begin_standing<M: MainStorage>(
    storage: &M,
    state: &mut PackedState,
    offer: AcceptedOffer,
    sent: &mut SentDown,
) -> Met
    requires { state.old.state.serials.made < 2 ^ 63 }
    ensures step { subchannel_stepped state.new.state (outcome_with result sent.new) ≡ on_accept.begins_at (M.contents storage.now) state.old.state offer.path offer.number (on_accept.offered_position state.old.state) }
    ensures setup { state.new.setup ≡ state.old.setup }
{
    match standing(state) {
        None => quiet(sent),
        Some(standing) => begin_with(storage, state, offer, &standing, sent),
    }
}

/// A halt that is pending is performed as the device is let go.
fn do_halt(state: &mut PackedState)
    requires { state.old.state.serials.made < 2 ^ 63 }
    ensures { state.new ≡ with_state state.old (on_accept.halt_performed state.old.state) }
{
    if is_halt_pending(state.scsw()) {
        make_pending(state, &StatusCause::HaltDone);
    }
}

/// What comes of an Accept that the hold took as `sent` says.
fn accepted_by<M: MainStorage>(
    storage: &M,
    state: &mut PackedState,
    met: Met,
    sent: &mut SentDown,
) -> Met
    requires { state.old.state.serials.made < 2 ^ 63 }
    ensures step { subchannel_stepped state.new.state (outcome_with result sent.new) ≡ on_accept.accepted_in_phase (M.contents storage.now) state.old.state state.old.state.hold.phase (outcome_with met sent.old) }
    ensures setup { state.new.setup ≡ state.old.setup }
{
    let phase = state.rest().hold.phase;
    match phase {
        HoldPhase::On { number, path, .. } => {
            state.use_path(path);
            begin_standing(storage, state, AcceptedOffer { number, path }, sent)
        }
        HoldPhase::Letting { path, .. } => {
            state.use_path(path);
            do_halt(state);
            met
        }
        _ => met,
    }
}

/// Accept: the program that was offered takes the device.
pub fn accept<M: MainStorage>(
    storage: &M,
    state: &mut PackedState,
    path: Path,
    signal: &LentUp<'_>,
    sent: &mut SentDown,
) -> Met
    requires { state.old.state.serials.made < 2 ^ 63 }
    ensures step { subchannel_stepped state.new.state (outcome_with result sent.new) ≡ on_accept.takes_accept (M.contents storage.now) state.old.state (hold_takes state.old.state.hold path (lent_up signal.now) (on_accept.takes_device state.old.state)) }
    ensures setup { state.new.setup ≡ state.old.setup }
{
    let mut hold = Hold::of(state.rest().hold);
    let met = take_by(&mut hold, path, signal, goes_ahead(state), sent);
    if !met.is_taken() {
        return ignored(sent);
    }
    state.rest_mut().hold = hold.state();
    accepted_by(storage, state, met, sent)
}
