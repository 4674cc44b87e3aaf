//! What a subchannel does as a command ends.

ghost use Rattle.std.specs.Prelude.{◌≡◌, ◌<◌, ◌^◌, IfSome};
ghost use Rattle.chan_model.specs.Lent.{lent_up};
ghost use Rattle.active_program.specs.Sent.{outcome_with};
ghost use Rattle.subchannel_model.specs.Causes.{with_cause};
ghost use Rattle.subchannel_model.specs.Ends as end_spec;
ghost use Rattle.subchannel_model.specs.End as on_end;
ghost use Rattle.subchannel_model.specs.Outcomes as outcomes;
ghost use Rattle.subchannel_model.specs.Suspension as suspension;
ghost use Rattle.subchannel_model.specs.Command as command_spec;
ghost use Rattle.active_program.specs.Stepping.{subchannel_stepped};
ghost use Rattle.active_program.specs.Working as working_spec;
ghost use Rattle.subchannel_model.specs.declared.cause.StatusCause.TheVariants as cause;
ghost use Rattle.data_move.specs.Commands as transfer_spec;
ghost use Rattle.functions.specs.Unwired.{with_state};

use crate::answers::{ignored, let_go, quiet, send};
use crate::intermediate::suspend;
use crate::met::Met;
use crate::moving::move_on;
use crate::sent::SentDown;
use allegiance::allegiances;
use allegiance::allegiances::dedicated;
use ccw_walk::Walk;
use ccw_walk::check::Check;
use chan_model::lent::{LentUp, PlainDown};
use chan_model::names::Path;
use chan_model::signal::{Down, Up};
use data_move::commands::{begun_with_room, next_command};
use data_move::transfer::{CommandStart, WithRoom};
use functions::PackedState;
use hold::Hold;
use status::ends::{chains_command, is_last_end};
use status::{make_end_pending, make_pending};
use storage_keys::MainStorage;
use subchannel_model::cause::StatusCause;
use subchannel_model::signals::EndSignal;
use subchannel_model::state::{ActiveProgram, Program};

/// The numbers of an End. None where the signal is another.
pub fn end_by(path: Path, signal: &LentUp<'_>) -> Option<EndSignal>
    ensures { result ≡ working_spec.end_by path (lent_up signal.now) }
{
    match *signal.kept {
        Up::End {
            number,
            command,
            status,
            more,
        } => Some(EndSignal {
            path,
            number,
            command,
            status,
            more,
        }),
        _ => None,
    }
}

/// Whether an End is of the command at hand of the program at work.
fn is_of_command(state: &PackedState, end: &EndSignal) -> bool
    ensures { result ≡ working_spec.is_of_command state.now.state.begun end.now }
{
    match &state.rest().begun {
        None => false,
        Some(begun) => end.command == begun.transfer.command,
    }
}

/// What an End leaves of the dedicated allegiance. Where one stands, the End is of a later program than the one whose unit
/// check brought it.
fn dedicated_by_end(before: Option<Path>, signal: EndSignal) -> Option<Path>
    ensures { result ≡ on_end.dedicated_after_end before signal }
{
    let cause = allegiances::AllegianceCause::End {
        path: signal.path,
        unit_check: signal.status.has_check(),
        later: true,
    };
    dedicated(before, cause)
}

fn take_end(state: &mut PackedState, signal: EndSignal)
    ensures { state.new ≡ with_state state.old (on_end.with_allegiance_after_end state.old.state signal) }
{
    let rest = state.rest_mut();
    rest.dedicated = dedicated_by_end(rest.dedicated, signal);
}

/// The program goes on with a command, of which its device is told.
fn send_next(
    state: &mut PackedState,
    end: &EndSignal,
    command: WithRoom,
    sent: &mut SentDown,
) -> Met
    requires { state.old.state.serials.made < 2 ^ 63 }
    ensures step { IfSome state.old.state.begun (λ b. subchannel_stepped state.new.state (outcome_with result sent.new) ≡
        on_end.sends_next_command state.old.state (on_end.with_first_end b) end.now command) }
    ensures setup { state.new.setup ≡ state.old.setup }
{
    let WithRoom { transfer, room } = command;
    let next = PlainDown::of(Down::Command {
        number: end.number,
        command: transfer.command,
        code: transfer.code,
        room,
    });
    move_on(state, transfer);
    send(sent, end.path, &next.lend())
}

/// The program is suspended instead of going on.
fn suspend_at(
    state: &mut PackedState,
    end: &EndSignal,
    program: Program,
    walk: Walk,
    count: u16,
    sent: &mut SentDown,
) -> Met
    requires { state.old.state.serials.made < 2 ^ 63 }
    ensures step { subchannel_stepped state.new.state (outcome_with result sent.new) ≡
        outcomes.device_released (suspension.program_suspended (on_end.with_allegiance_after_end state.old.state end.now) program walk count) }
    ensures setup { state.new.setup ≡ state.old.setup }
{
    take_end(state, *end);
    suspend(state, program, walk, count);
    let_go(state, sent)
}

/// The program ends with a check instead of going on.
fn check_at(
    state: &mut PackedState,
    end: &EndSignal,
    tried: u32,
    check: Check,
    count: u16,
    sent: &mut SentDown,
) -> Met
    requires { state.old.state.serials.made < 2 ^ 63 }
    ensures step { subchannel_stepped state.new.state (outcome_with result sent.new) ≡
        outcomes.device_released (with_cause (on_end.with_allegiance_after_end state.old.state end.now) (cause.FetchFault tried check count)) }
    ensures setup { state.new.setup ≡ state.old.setup }
{
    take_end(state, *end);
    make_pending(
        state,
        &StatusCause::FetchFault {
            tried,
            check,
            count,
        },
    );
    let_go(state, sent)
}

fn chain<M: MainStorage>(
    storage: &M,
    state: &mut PackedState,
    end: &EndSignal,
    sent: &mut SentDown,
) -> Met
    requires made { state.old.state.serials.made < 2 ^ 63 }
    requires below { command_spec.AreNumbersBelow state.old.state.begun }
    ensures step { IfSome state.old.state.begun (λ b. subchannel_stepped state.new.state (outcome_with result sent.new) ≡
        on_end.chains_with (M.contents storage.now) state.old.state (on_end.with_first_end b) end.now (transfer_spec.next_command (M.contents storage.now) b.transfer (end_spec.has_status_modifier end.now.status))) }
    ensures setup { state.new.setup ≡ state.old.setup }
{
    let Some(begun) = &state.rest().begun else {
        return ignored(sent);
    };
    let next = next_command(storage, &begun.transfer, end.status.has_modifier());
    let program = begun.program;
    let count = begun.transfer.moving.residual();
    match next.outcome {
        CommandStart::Begins(transfer) => {
            let command = begun_with_room(storage, &transfer);
            send_next(state, end, command, sent)
        }
        CommandStart::Suspends => suspend_at(state, end, program, next.walk, count, sent),
        CommandStart::Stops(check) => check_at(state, end, next.walk.tried(), check, count, sent),
    }
}

fn note_end(begun: &mut ActiveProgram)
    ensures { begun.new ≡ on_end.with_first_end begun.old }
{
    begun.transfer.ended = true;
}

fn go_on<M: MainStorage>(
    storage: &M,
    state: &mut PackedState,
    end: &EndSignal,
    sent: &mut SentDown,
) -> Met
    requires made { state.old.state.serials.made < 2 ^ 63 }
    requires below { command_spec.AreNumbersBelow state.old.state.begun }
    ensures step { IfSome state.old.state.begun (λ b. subchannel_stepped state.new.state (outcome_with result sent.new) ≡
        on_end.chains_at_device_end (M.contents storage.now) state.old.state (on_end.with_first_end b) end.now) }
    ensures setup { state.new.setup ≡ state.old.setup }
{
    if end.status.has_device_end() {
        return chain(storage, state, end, sent);
    }
    if let Some(begun) = &mut state.rest_mut().begun {
        note_end(begun);
    }
    take_end(state, *end);
    quiet(sent)
}

/// Shows the end of the program at work, or of its command.
fn show_end(state: &mut PackedState, end: &EndSignal)
    requires { state.old.state.serials.made < 2 ^ 63 }
    ensures state { IfSome state.old.state.begun (λ b. state.new ≡ with_state state.old (on_end.with_end_status state.old.state b end.now)) }
    ensures setup { state.new.setup ≡ state.old.setup }
{
    let before = state.rest().dedicated;
    make_end_pending(state, end.status, end.more);
    state.rest_mut().dedicated = dedicated_by_end(before, *end);
}

fn stop_at(state: &mut PackedState, end: &EndSignal, sent: &mut SentDown) -> Met
    requires { state.old.state.serials.made < 2 ^ 63 }
    ensures step { IfSome state.old.state.begun (λ b. subchannel_stepped state.new.state (outcome_with result sent.new) ≡ on_end.concludes state.old.state b end.now) }
    ensures setup { state.new.setup ≡ state.old.setup }
{
    show_end(state, end);
    if is_last_end(end.status) {
        let_go(state, sent)
    } else {
        quiet(sent)
    }
}

/// Whether the program at work goes on after an End.
fn chains_at(state: &PackedState, end: &EndSignal) -> bool
    ensures { result ≡ working_spec.chains_at state.now.state state.now.state.begun end.now }
{
    match &state.rest().begun {
        None => false,
        Some(begun) => chains_command(state.scsw(), begun, end.status, end.more),
    }
}

fn command_ended<M: MainStorage>(
    storage: &M,
    state: &mut PackedState,
    end: &EndSignal,
    sent: &mut SentDown,
) -> Met
    requires made { state.old.state.serials.made < 2 ^ 63 }
    requires below { command_spec.AreNumbersBelow state.old.state.begun }
    ensures step { IfSome state.old.state.begun (λ b. subchannel_stepped state.new.state (outcome_with result sent.new) ≡ on_end.ends_command (M.contents storage.now) state.old.state b end.now) }
    ensures setup { state.new.setup ≡ state.old.setup }
{
    if chains_at(state, end) {
        go_on(storage, state, end, sent)
    } else {
        stop_at(state, end, sent)
    }
}

/// End: the command ended.
pub fn end_command<M: MainStorage>(
    storage: &M,
    state: &mut PackedState,
    path: Path,
    signal: &LentUp<'_>,
    sent: &mut SentDown,
) -> Met
    requires made { state.old.state.serials.made < 2 ^ 63 }
    requires below { command_spec.AreNumbersBelow state.old.state.begun }
    ensures step { subchannel_stepped state.new.state (outcome_with result sent.new) ≡ working_spec.end_taken_by (M.contents storage.now) state.old.state (working_spec.end_by path (lent_up signal.now)) }
    ensures setup { state.new.setup ≡ state.old.setup }
{
    let Some(end) = end_by(path, signal) else {
        return ignored(sent);
    };
    if !Hold::of(state.rest().hold).is_on(end.number) || !is_of_command(state, &end) {
        return ignored(sent);
    }
    command_ended(storage, state, &end, sent)
}
