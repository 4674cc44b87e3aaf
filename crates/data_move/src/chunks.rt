//! How the bytes of a command move, chunk by chunk.

ghost use Rattle.std.specs.Prelude.{◌≡◌, ◌<◌, ◌≤◌, ◌^◌, ◌+◌, ◌==◌, Some, [], length};
ghost use Rattle.data_move.specs.DataChaining as data_chaining;
ghost use Rattle.data_move.specs.ToDevice as to_device;
ghost use Rattle.data_move.specs.FromDevice as from_device;
ghost use Rattle.data_move.specs.ChunkNumbers as chunk_numbers;
ghost use Rattle.data_move.specs.ToDevice.{with_bytes};

use crate::commands::{data_of, has_stopped, is_outward, locate};
use crate::slices::ChunkSlice;
use crate::transfer::{NextChunk, Transfer};
use ccw_walk::Walk;
use ccw_walk::check::Check;
use ccw_walk::program::Advance;
use storage_keys::MainStorage;

fn chains_data(transfer: &Transfer, count: u16) -> bool
    ensures { result ≡ data_chaining.chains_data transfer.now count }
{
    count != 0
        && transfer.moving.residual() == 0
        && transfer.moving.ccw().chain_data
        && transfer.fault.is_none()
}

fn chain_to(transfer: &mut Transfer, walk: Walk, advance: Option<Advance>)
    ensures { transfer.new ≡ data_chaining.with_next_ccw transfer.old walk advance }
{
    match advance {
        Some(Advance::Takes(ccw)) => {
            transfer.walk = walk;
            transfer.moving = data_of(&walk, transfer.code, ccw);
            transfer.pci_pending = ccw.program_controlled;
        }
        Some(Advance::Suspends) => {
            transfer.walk = walk;
            transfer.fault = Some(Check::Program);
        }
        Some(Advance::Stops(check)) => {
            transfer.walk = walk;
            transfer.fault = Some(check);
        }
        None => {}
    }
}

/// The next block takes control, with its own data.
fn chain<M: MainStorage>(storage: &M, transfer: &mut Transfer)
    ensures { transfer.new ≡ data_chaining.data_chained (M.contents storage.now) transfer.old }
{
    let mut walk = transfer.walk;
    walk.used_up();
    let advance = walk.advance(storage);
    chain_to(transfer, walk, advance);
}

/// So many bytes of the chunk at hand were moved.
fn move_on<M: MainStorage>(storage: &M, transfer: &mut Transfer, count: u16)
    requires { count ≤ transfer.old.moving.left }
    ensures { transfer.new ≡ data_chaining.after_bytes_moved (M.contents storage.now) transfer.old count }
{
    transfer.moving.moved(count);
    if chains_data(transfer, count) {
        chain(storage, transfer);
    }
}

/// Whether a chunk is the next one.
fn is_next(transfer: &Transfer, sequence: u64) -> bool
    requires { transfer.now.sequence < 2 ^ 63 }
    ensures { result ≡ (sequence == transfer.now.sequence + 1) }
{
    sequence == transfer.sequence + 1
}

/// The device absorbed so many bytes of a chunk.
pub fn absorb<M: MainStorage>(storage: &M, transfer: &mut Transfer, sequence: u64, count: usize)
    requires { transfer.old.sequence < 2 ^ 63 }
    ensures { transfer.new ≡ to_device.chunk_absorbed (M.contents storage.now) transfer.old sequence count }
{
    if is_next(transfer, sequence) {
        transfer.sequence = sequence;
        transfer.stopped = transfer.stopped | (count < usize::from(transfer.offered));
        let moved = count.min(usize::from(transfer.moving.room()));
        move_on(storage, transfer, moved as u16);
    }
}

/// The transfer after the device absorbed so many bytes of a chunk.
pub fn absorbed<M: MainStorage>(
    storage: &M,
    transfer: &Transfer,
    sequence: u64,
    count: usize,
) -> Transfer
    requires { transfer.now.sequence < 2 ^ 63 }
    ensures { result ≡ to_device.chunk_absorbed (M.contents storage.now) transfer.now sequence count }
{
    let mut next = *transfer;
    absorb(storage, &mut next, sequence, count);
    next
}

/// The bytes of a chunk that is given, of which the transfer takes note.
fn give_bytes<'a>(transfer: &mut Transfer, bytes: ChunkSlice<'a>) -> ChunkSlice<'a>
    ensures { with_bytes transfer.new result ≡ to_device.with_bytes_offered transfer.old bytes.entry }
{
    transfer.offered = bytes.len() as u16;
    bytes
}

fn give_fault<'a>(transfer: &mut Transfer, check: Check) -> ChunkSlice<'a>
    ensures { with_bytes transfer.new result ≡ record { transfer = record transfer.old { offered = 0; fault = Some check }; bytes = [] } }
{
    transfer.offered = 0;
    transfer.fault = Some(check);
    ChunkSlice::empty()
}

fn give_from<'a, M: MainStorage>(storage: &'a M, transfer: &mut Transfer) -> ChunkSlice<'a>
    ensures { with_bytes transfer.new result ≡ to_device.chunk_at_place (M.contents storage.now) transfer.old }
{
    if has_stopped(transfer) {
        return give_bytes(transfer, ChunkSlice::empty());
    }
    match transfer.moving.copied(storage, transfer.walk.orb().key) {
        Ok(bytes) => give_bytes(transfer, bytes),
        Err(check) => give_fault(transfer, check),
    }
}

/// The bytes of the next chunk as it is given to the device, as they lie in storage; the transfer takes note of them.
pub fn give_next<'a, M: MainStorage>(storage: &'a M, transfer: &mut Transfer) -> ChunkSlice<'a>
    ensures { with_bytes transfer.new result ≡ to_device.next_chunk (M.contents storage.now) transfer.old }
{
    locate(storage, transfer);
    give_from(storage, transfer)
}

/// The next chunk as it is given to the device: its bytes as they lie in storage.
pub fn next_given<'a, M: MainStorage>(storage: &'a M, transfer: &Transfer) -> NextChunk<'a>
    ensures { result ≡ to_device.next_chunk (M.contents storage.now) transfer.now }
{
    let mut next = *transfer;
    let bytes = give_next(storage, &mut next);
    NextChunk {
        transfer: next,
        bytes,
    }
}

/// Bytes that the device supplied are stored at the next places.
fn bring_in<M: MainStorage>(storage: &mut M, transfer: &mut Transfer, bytes: &[u8])
    requires piece { length bytes.now ≤ transfer.old.moving.left }
    requires chunk { length bytes.now ≤ 256 }
    ensures transfer { transfer.new ≡ (from_device.bytes_brought_in (M.contents storage.old) transfer.old bytes.now).transfer }
    ensures storage { M.contents storage.new ≡ (from_device.bytes_brought_in (M.contents storage.old) transfer.old bytes.now).storage }
    ensures lender { M.lender storage.new ≡ M.lender storage.old }
{
    if transfer.fault.is_some() {
        return;
    }
    let key = transfer.walk.orb().key;
    match transfer.moving.stored(storage, key, bytes) {
        Ok(()) => move_on(storage, transfer, bytes.len() as u16),
        Err(check) => transfer.fault = Some(check),
    }
}

/// The device supplied a chunk: the bytes that there is room for are stored.
pub fn bring<M: MainStorage>(storage: &mut M, transfer: &mut Transfer, sequence: u64, bytes: &[u8])
    requires { transfer.old.sequence < 2 ^ 63 }
    ensures transfer { transfer.new ≡ (from_device.chunk_stored (M.contents storage.old) transfer.old sequence bytes.now).transfer }
    ensures storage { M.contents storage.new ≡ (from_device.chunk_stored (M.contents storage.old) transfer.old sequence bytes.now).storage }
    ensures lender { M.lender storage.new ≡ M.lender storage.old }
{
    if is_next(transfer, sequence) {
        transfer.sequence = sequence;
        let fitting = bytes.len().min(usize::from(transfer.moving.room()));
        bring_in(storage, transfer, &bytes[..fitting]);
    }
}

/// The transfer after a chunk that the device supplied. The bytes that there is room for are stored.
pub fn brought<M: MainStorage>(
    storage: &mut M,
    transfer: &Transfer,
    sequence: u64,
    bytes: &[u8],
) -> Transfer
    requires { transfer.now.sequence < 2 ^ 63 }
    ensures transfer { result ≡ (from_device.chunk_stored (M.contents storage.old) transfer.now sequence bytes.now).transfer }
    ensures storage { M.contents storage.new ≡ (from_device.chunk_stored (M.contents storage.old) transfer.now sequence bytes.now).storage }
    ensures lender { M.lender storage.new ≡ M.lender storage.old }
{
    let mut next = *transfer;
    bring(storage, &mut next, sequence, bytes);
    next
}

/// Whether a Data is of this command, its chunk the last one or the next, and to be answered.
pub fn is_answered(transfer: &Transfer, command: u64, sequence: u64) -> bool
    requires { transfer.now.sequence < 2 ^ 63 }
    ensures { result ≡ chunk_numbers.is_answered transfer.now command sequence }
{
    command == transfer.command
        && (sequence == transfer.sequence || sequence == transfer.sequence + 1)
        && (is_outward(transfer.code) || sequence != 0)
}
