//! What the events of storage do to the whole.

ghost use Rattle.std.specs.Prelude.{◌≡◌, ◌≤◌, Ok, IfErr, OnErr, OnOk};
ghost use Rattle.chan_model.specs.declared.fault.Fault.TheVariants as fault_spec;
ghost use Rattle.signal_step.specs.Giving as giving_spec;
ghost use Rattle.machine_model.specs.State.{lent};
ghost use Rattle.machine_model.specs.State.{State};
ghost use Rattle.machine_model.specs.StorageSteps as storage_spec;
ghost use Rattle.chan_events.specs.declared.reply.Reply.TheVariants as reply_spec;
ghost use Rattle.event_log.specs.Logs.{IsKept, answer_in};
ghost use Rattle.chan_events.specs.Replies.{plain_outcome};

use chan_events::reply::{PlainReply, Reply};
use chan_model::chunk::{Chunk, ChunkLength};
use chan_model::fault::Fault;
use chan_model::names::Cpu;
use event_log::logs::Log;
use storage_keys::key::Key;
use storage_keys::{MainStorage, StorageFault};

/// The answer of an event that storage has done or refused.
fn done(outcome: Result<(), StorageFault>) -> Result<PlainReply, Fault>
    ensures done { OnOk outcome (result ≡ Ok reply_spec.Done) }
    ensures refused { IfErr outcome (λ f. result ≡ Err (fault_spec.Storage f)) }
{
    match outcome {
        Ok(()) => Ok(Reply::Done),
        Err(fault) => Err(Fault::Storage(fault)),
    }
}

/// Put: bytes in storage, whatever their keys.
#[inline(never)]
pub fn put<M: MainStorage>(
    storage: &mut M,
    address: u32,
    bytes: &Chunk,
) -> Result<PlainReply, Fault>
    ensures gives { (machine : State) → giving_spec.Gives (lent machine (M.contents storage.old)) (storage_spec.put_result (lent machine (M.contents storage.old)) address bytes.now) (plain_outcome result) (lent machine (M.contents storage.new)) }
    ensures lender { M.lender storage.new ≡ M.lender storage.old }
{
    done(storage.put(address, bytes.as_slice()))
}

/// SetKey: the key of the block of an address.
#[inline(never)]
pub fn set_key<M: MainStorage>(storage: &mut M, address: u32, key: Key) -> Result<PlainReply, Fault>
    ensures gives { (machine : State) → giving_spec.Gives (lent machine (M.contents storage.old)) (storage_spec.key_result (lent machine (M.contents storage.old)) address key) (plain_outcome result) (lent machine (M.contents storage.new)) }
    ensures lender { M.lender storage.new ≡ M.lender storage.old }
{
    done(storage.set_key(address, key))
}

/// SetPrefix: the prefix of a CPU.
#[inline(never)]
pub fn set_prefix<M: MainStorage>(
    storage: &mut M,
    cpu: Cpu,
    address: u32,
) -> Result<PlainReply, Fault>
    ensures gives { (machine : State) → giving_spec.Gives (lent machine (M.contents storage.old)) (storage_spec.prefix_result (lent machine (M.contents storage.old)) cpu address) (plain_outcome result) (lent machine (M.contents storage.new)) }
    ensures lender { M.lender storage.new ≡ M.lender storage.old }
{
    done(storage.set_prefix(cpu.number(), address))
}

/// Show: bytes of storage, whatever their keys; the reply has them.
#[inline(never)]
pub fn show<M: MainStorage>(
    storage: &M,
    address: u32,
    length: ChunkLength,
    log: &mut Log,
) -> Result<(), Fault>
    requires room { 1 ≤ log.old.room }
    requires fresh { log.old.reply ≡ reply_spec.Done }
    ensures gives { (machine : State) → giving_spec.Gives (lent machine (M.contents storage.now)) (storage_spec.show_result (lent machine (M.contents storage.now)) address length) (answer_in result log.new) (lent machine (M.contents storage.now)) }
    ensures kept { IsKept log.old log.new }
    ensures refused { OnErr result (log.new ≡ log.old) }
{
    match storage.show(address, length.get()) {
        Ok(shown) => {
            let reply = Reply::Shown {
                bytes: ChunkLength::of(shown),
            };
            log.tell_kept(reply, shown);
            Ok(())
        }
        Err(fault) => Err(Fault::Storage(fault)),
    }
}
