//! What a subchannel does with the Data of a command.

ghost use Rattle.std.specs.Prelude.{◌≡◌, ◌<◌, ◌≤◌, ◌^◌, IfSome, length};
ghost use Rattle.chan_model.specs.Lent.{lent_up};
ghost use Rattle.chan_model.specs.Signals.{load_bytes, load_of};
ghost use Rattle.active_program.specs.Sent.{outcome_with};
ghost use Rattle.chan_model.specs.Loads.{load_length};
ghost use Rattle.chan_model.specs.UnitReports.{is_outward as is_outward_code};
ghost use Rattle.data_move.specs.FromDevice.{chunk_stored};
ghost use Rattle.subchannel_model.specs.Command as command_spec;
ghost use Rattle.subchannel_model.specs.Data as on_data;
ghost use Rattle.subchannel_model.specs.Outcomes as outcomes;
ghost use Rattle.active_program.specs.Working as working_spec;
ghost use Rattle.active_program.specs.Stepping.{subchannel_stepped};
ghost use Rattle.functions.specs.Unwired.{with_state};

use crate::answers::ignored;
use crate::intermediate::interrupt;
use crate::met::Met;
use crate::sent::SentDown;
use allegiance::allegiances::{AllegianceCause, dedicated};
use chan_model::chunk::ChunkLength;
use chan_model::lent::{LentUp, PlainDown};
use chan_model::names::Path;
use chan_model::signal::{Down, Load, Up};
use data_move::chunks::{absorb, bring, give_next, is_answered};
use data_move::commands::{find_room, is_outward};
use data_move::transfer::Transfer;
use functions::PackedState;
use hold::Hold;
use storage_keys::MainStorage;
use subchannel_model::signals::DataSignal;
use subchannel_model::state::ActiveProgram;

/// The numbers of a Data. None where the signal is another.
pub fn data_by(path: Path, signal: &LentUp<'_>) -> Option<DataSignal>
    ensures { result ≡ working_spec.data_by path (lent_up signal.now) }
{
    match *signal.kept {
        Up::Data {
            number,
            connection,
            command,
            sequence,
            ..
        } => Some(DataSignal {
            path,
            number,
            connection,
            command,
            sequence,
        }),
        _ => None,
    }
}

/// What a Data leaves of the dedicated allegiance. Where one stands, the Data is of a later program than the one whose unit
/// check brought it.
fn dedicated_by_data(before: Option<Path>) -> Option<Path>
    ensures { result ≡ command_spec.dedicated_after_data before }
{
    dedicated(before, AllegianceCause::Data { later: true })
}

/// The dedicated allegiance follows, and a block that took control may ask for an interruption.
fn follow(state: &mut PackedState)
    requires { state.old.state.serials.made < 2 ^ 63 }
    ensures { state.new ≡ with_state state.old (working_spec.followed state.old.state) }
{
    let rest = state.rest_mut();
    rest.dedicated = dedicated_by_data(rest.dedicated);
    interrupt(state);
}

/// The program at work is a command further; a block that took control may ask for an interruption.
pub(crate) fn move_on(state: &mut PackedState, transfer: Transfer)
    requires { state.old.state.serials.made < 2 ^ 63 }
    ensures state { IfSome state.old.state.begun (λ b. state.new ≡ with_state state.old (on_data.after_chunk state.old.state b transfer)) }
    ensures setup { state.new.setup ≡ state.old.setup }
{
    if let Some(begun) = &mut state.rest_mut().begun {
        begun.transfer = transfer;
    }
    follow(state);
}

/// The device absorbed so many bytes; the next ones are given.
fn give<M: MainStorage>(
    storage: &M,
    begun: &mut ActiveProgram,
    moved: &DataSignal,
    count: usize,
    sent: &mut SentDown,
)
    requires sequence { moved.now.sequence < 2 ^ 63 }
    requires below { begun.old.transfer.sequence < 2 ^ 63 }
    ensures begun { begun.new ≡ record begun.old { transfer = (working_spec.given (M.contents storage.now) begun.old moved.now count).transfer } }
    ensures sent { sent.new ≡ working_spec.give_of moved.now (working_spec.given (M.contents storage.now) begun.old moved.now count) }
{
    absorb(storage, &mut begun.transfer, moved.sequence, count);
    let bytes = give_next(storage, &mut begun.transfer);
    let signal = Down::Give {
        bytes: ChunkLength::of(bytes.as_slice()),
        number: moved.number,
        connection: moved.connection,
        command: moved.command,
        sequence: moved.sequence + 1,
    };
    sent.put(moved.path, &signal.lend(bytes.as_slice()));
}

/// The bytes that the device supplied are stored; it is told how many more may come.
fn take_in<M: MainStorage>(
    storage: &mut M,
    begun: &mut ActiveProgram,
    moved: &DataSignal,
    bytes: &[u8],
    sent: &mut SentDown,
)
    requires { begun.old.transfer.sequence < 2 ^ 63 }
    ensures storage { M.contents storage.new ≡ (chunk_stored (M.contents storage.old) begun.old.transfer moved.now.sequence bytes.now).storage }
    ensures begun { begun.new ≡ record begun.old { transfer = (working_spec.taken_in (M.contents storage.old) begun.old moved.now bytes.now).transfer } }
    ensures sent { sent.new ≡ working_spec.took_of moved.now (working_spec.taken_in (M.contents storage.old) begun.old moved.now bytes.now) }
    ensures lender { M.lender storage.new ≡ M.lender storage.old }
{
    bring(storage, &mut begun.transfer, moved.sequence, bytes);
    let room = find_room(storage, &mut begun.transfer);
    let signal = PlainDown::of(Down::Took {
        number: moved.number,
        command: moved.command,
        sequence: moved.sequence,
        room,
    });
    sent.put(moved.path, &signal.lend());
}

/// How many bytes a Data is of.
fn count_of(signal: &LentUp<'_>) -> usize
    ensures { result ≡ load_length (load_of (lent_up signal.now)) }
{
    match signal.load() {
        Load::Absorbed(count) => usize::from(count),
        Load::Bytes(bytes) => bytes.as_slice().len(),
    }
}

/// Whether a Data is to be answered by the program at work.
fn is_due(state: &PackedState, moved: &DataSignal) -> bool
    requires { command_spec.AreNumbersBelow state.now.state.begun }
    ensures { result ≡ working_spec.is_due state.now.state.begun moved.now }
{
    match &state.rest().begun {
        None => false,
        Some(begun) => is_answered(&begun.transfer, moved.command, moved.sequence),
    }
}

/// Whether the command at work takes bytes to the device.
fn goes_out(state: &PackedState) -> bool
    ensures { IfSome state.now.state.begun (λ b. result ≡ is_outward_code b.transfer.code) }
{
    match &state.rest().begun {
        None => false,
        Some(begun) => is_outward(begun.transfer.code),
    }
}

fn give_bytes<M: MainStorage>(
    storage: &M,
    state: &mut PackedState,
    moved: &DataSignal,
    count: usize,
    sent: &mut SentDown,
) -> Met
    requires made { state.old.state.serials.made < 2 ^ 63 }
    requires sequence { moved.now.sequence < 2 ^ 63 }
    requires below { command_spec.AreNumbersBelow state.old.state.begun }
    ensures step { IfSome state.old.state.begun (λ b. subchannel_stepped state.new.state (outcome_with result sent.new) ≡
        working_spec.give_next (M.contents storage.now) state.old.state b moved.now count) }
    ensures setup { state.new.setup ≡ state.old.setup }
{
    if let Some(begun) = &mut state.rest_mut().begun {
        give(storage, begun, moved, count, sent);
    }
    follow(state);
    Met::Taken
}

fn take_bytes<M: MainStorage>(
    storage: &mut M,
    state: &mut PackedState,
    moved: &DataSignal,
    bytes: &[u8],
    sent: &mut SentDown,
) -> Met
    requires made { state.old.state.serials.made < 2 ^ 63 }
    requires below { command_spec.AreNumbersBelow state.old.state.begun }
    ensures step { IfSome state.old.state.begun (λ b. outcomes.with_storage (M.contents storage.new) (subchannel_stepped state.new.state (outcome_with result sent.new)) ≡
        on_data.tells_room_after state.old.state b moved.now (chunk_stored (M.contents storage.old) b.transfer moved.now.sequence bytes.now)) }
    ensures setup { state.new.setup ≡ state.old.setup }
    ensures lender { M.lender storage.new ≡ M.lender storage.old }
{
    if let Some(begun) = &mut state.rest_mut().begun {
        take_in(storage, begun, moved, bytes, sent);
    }
    follow(state);
    Met::Taken
}

fn move_bytes<M: MainStorage>(
    storage: &mut M,
    state: &mut PackedState,
    moved: &DataSignal,
    signal: &LentUp<'_>,
    sent: &mut SentDown,
) -> Met
    requires made { state.old.state.serials.made < 2 ^ 63 }
    requires sequence { moved.now.sequence < 2 ^ 63 }
    requires below { command_spec.AreNumbersBelow state.old.state.begun }
    ensures step { IfSome state.old.state.begun (λ b. outcomes.with_storage (M.contents storage.new) (subchannel_stepped state.new.state (outcome_with result sent.new)) ≡
        on_data.moves_bytes (M.contents storage.old) state.old.state b moved.now (load_of (lent_up signal.now))) }
    ensures setup { state.new.setup ≡ state.old.setup }
    ensures lender { M.lender storage.new ≡ M.lender storage.old }
{
    if goes_out(state) {
        give_bytes(storage, state, moved, count_of(signal), sent)
    } else {
        take_bytes(storage, state, moved, signal.bytes(), sent)
    }
}

/// Data: bytes were moved.
pub fn take_data<M: MainStorage>(
    storage: &mut M,
    state: &mut PackedState,
    path: Path,
    signal: &LentUp<'_>,
    sent: &mut SentDown,
) -> Met
    requires made { state.old.state.serials.made < 2 ^ 63 }
    requires below { command_spec.AreNumbersBelow state.old.state.begun }
    ensures step { outcomes.with_storage (M.contents storage.new) (subchannel_stepped state.new.state (outcome_with result sent.new)) ≡ working_spec.data_taken (M.contents storage.old) state.old.state (load_of (lent_up signal.now)) (working_spec.data_by path (lent_up signal.now)) }
    ensures setup { state.new.setup ≡ state.old.setup }
    ensures lender { M.lender storage.new ≡ M.lender storage.old }
{
    let Some(moved) = data_by(path, signal) else {
        return ignored(sent);
    };
    if !Hold::of(state.rest().hold).is_connected(path, moved.number, moved.connection)
        || !is_due(state, &moved)
    {
        return ignored(sent);
    }
    move_bytes(storage, state, &moved, signal, sent)
}
