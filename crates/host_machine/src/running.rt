//! A machine that runs: the channel subsystem, with what of storage its host need not have.

ghost use Rattle.std.specs.Prelude.{◌≡◌, ◌⊎◌, ◌*◌, IfErr, IfOk, IsTrue, OnErr, length, replicate, true};
ghost use Rattle.channel_subsystem.specs.GivenSteps.{IsGivenStep, IsOtherGivenStep};
ghost use Rattle.channel_subsystem.specs.Hosting.{IsHostSize, IsHostStep};
ghost use Rattle.host_machine.specs.Hosts as spec;
ghost use Rattle.host_machine.specs.Answers.{answer_number};
ghost use Rattle.host_machine.specs.Histories.{HasForgotten};
ghost use Rattle.host_machine.specs.Hosts.{Answers, Enters, IsStarted};
ghost use Rattle.path_select.specs.Choice.{TakesNext};
ghost use Rattle.storage_keys.specs.Storage.{are_areas, lent_contents, may_be_lent};
ghost use Rattle.subsystem.specs.Keeping.{answer_of};

use crate::answers::{refusal_number, reply_number};
use chan_events::event::Event;
use chan_events::reply::{PlainReply, Reply};
use chan_model::names::Cpu;
use channel_config::config::Config;
use channel_subsystem::host_fault::HostFault;
use channel_subsystem::hosted::ChannelSubsystem;
use channel_subsystem::keeping::Keeping;
use io_step::{Answered, ByValue, OtherByValue};
use memory::{Supply, make_room};
use path_select::Rotating;
use std::alloc::{AllocError, Global};
use std::marker::Model;
use storage_keys::LentStorage;
use subsystem::subsystem::NotMade;

/// How many bytes a block has.
const BLOCK: usize = 4096;

/// A channel subsystem, a key for each block of its storage, for calls that lend none, and the prefix of each of 16 CPUs.
#[derive(Drop)]
pub struct Running {
    subsystem: ChannelSubsystem<Rotating>,
    keys: Vec<u8>,
    prefixes: [u32; 16],
}

impl Model for Running {
    ghost use Rattle.std.specs.Prelude.{◌≡◌, ◌*◌, IsTrue, length};
    ghost use Rattle.channel_subsystem.specs.Hosting.{IsHostSize};
    ghost use Rattle.host_machine.specs.Machines.{Running as definition};
    ghost use Rattle.storage_keys.specs.Storage.{are_areas};

    ghost Value = { definition };

    ghost view = { λ r. record { subsystem = r.subsystem; keys = r.keys.items; prefixes = r.prefixes } };

    ghost invariant = { λ r.
        IsHostSize r.subsystem.blocks × ((length r.keys.items ≡ r.subsystem.blocks) × IsTrue (are_areas (4096 * r.subsystem.blocks) r.prefixes)) };
}

/// A key of zero for each of so many blocks.
fn zero_keys<S: Supply>(alloc: Global, supply: &mut S, blocks: usize) -> Result<Vec<u8>, AllocError>
    ensures keys { IfOk result (λ keys. keys.items ≡ replicate blocks 0) }
    ensures memory { OnErr result (S.refused supply.new ≡ true) }
{
    let mut keys = Vec::new(alloc);
    make_room(supply, &mut keys, blocks)?;
    keys.resize(blocks, 0).unwrap();
    Ok(keys)
}

/// An event on storage that is lent.
fn enter_lent(
    subsystem: &mut ChannelSubsystem<Rotating>,
    bytes: &mut [u8],
    keys: &mut [u8],
    prefixes: &mut [u32],
    event: &Event,
) -> Result<(), HostFault>
    requires { IsTrue (may_be_lent (length bytes.old) (length keys.old) prefixes.old) }
    ensures stepped { IsHostStep TakesNext subsystem.old (lent_contents bytes.old keys.old prefixes.old) event.now
        (answer_of result subsystem.new.kept) subsystem.new (lent_contents bytes.new keys.new prefixes.new) }
    ensures areas { IsTrue (are_areas (length bytes.new) prefixes.new) }
{
    let mut storage = LentStorage::new(bytes, keys, prefixes);
    subsystem.perform(&mut storage, event)
}

impl Running {
    /// The machine that is set up so, for storage of so many blocks of 4,096 bytes, with keys and prefixes of zero, in what room a supply
    /// has. The set-up is handed back where the supply refuses a growth, or the blocks are not 16 to 524,288.
    #[inline(never)]
    pub fn new_with<S: Supply>(
        alloc: Global,
        supply: &mut S,
        config: Config,
        blocks: u32,
        keeping: Keeping,
    ) -> Result<Running, Config>
        ensures started { IfOk result (λ r. IsStarted config blocks keeping r) }
        ensures handed_back { IfErr result (λ c. c ≡ config) }
        ensures memory { OnErr result ((S.refused supply.new ≡ true) ⊎ (¬ IsHostSize blocks)) }
    {
        let Ok(keys) = zero_keys(alloc, supply, blocks as usize) else {
            return Err(config);
        };
        match ChannelSubsystem::new_with(alloc, supply, config, blocks, keeping, Rotating) {
            Ok(subsystem) => Ok(Running {
                subsystem,
                keys,
                prefixes: [0; 16],
            }),
            Err(NotMade { config, .. }) => Err(config),
        }
    }

    /// Its channel subsystem.
    pub fn subsystem(&self) -> &ChannelSubsystem<Rotating>
        ensures { result.now ≡ self.now.subsystem }
    {
        &self.subsystem
    }

    /// Lets go the entries that are kept.
    pub fn forget(&mut self)
        ensures { HasForgotten self.old self.new }
    {
        self.subsystem.forget();
    }

    /// Whether storage of so many bytes may be lent, with so many keys.
    fn is_lent(&self, bytes: usize, keys: usize) -> bool
        ensures { result ≡ spec.is_lent self.now bytes keys }
    {
        let blocks = self.keys.len();
        bytes == BLOCK * blocks && (keys == 0 || keys == blocks)
    }

    /// An event on storage of its size, with a key for each block.
    fn enter_with_keys(
        &mut self,
        bytes: &mut [u8],
        keys: &mut [u8],
        event: &Event,
    ) -> Result<(), HostFault>
        requires bytes { length bytes.old ≡ 4096 * self.old.subsystem.blocks }
        requires keys { length keys.old ≡ self.old.subsystem.blocks }
        ensures stepped { IsHostStep TakesNext self.old.subsystem (lent_contents bytes.old keys.old self.old.prefixes) event.now
            (answer_of result self.new.subsystem.kept) self.new.subsystem (lent_contents bytes.new keys.new self.new.prefixes) }
        ensures keys { self.new.keys ≡ self.old.keys }
    {
        enter_lent(&mut self.subsystem, bytes, keys, &mut self.prefixes, event)
    }

    /// An event on storage of its size, whose keys the machine has.
    fn enter_alone(&mut self, bytes: &mut [u8], event: &Event) -> Result<(), HostFault>
        requires bytes { length bytes.old ≡ 4096 * self.old.subsystem.blocks }
        ensures stepped { IsHostStep TakesNext self.old.subsystem (lent_contents bytes.old self.old.keys self.old.prefixes) event.now
            (answer_of result self.new.subsystem.kept) self.new.subsystem (lent_contents bytes.new self.new.keys self.new.prefixes) }
    {
        enter_lent(
            &mut self.subsystem,
            bytes,
            self.keys.as_mut_slice(),
            &mut self.prefixes,
            event,
        )
    }

    /// One event on what storage holds now. Keys are lent for all blocks, or for none: then those of the machine count. `OtherSize`
    /// where there are not as many bytes as the machine was started with, or some keys, but not one for each block.
    pub fn perform(
        &mut self,
        bytes: &mut [u8],
        keys: &mut [u8],
        event: &Event,
    ) -> Result<(), HostFault>
        ensures { Answers self.old bytes.old keys.old event.now (answer_of result self.new.subsystem.kept) self.new bytes.new keys.new }
    {
        if !self.is_lent(bytes.len(), keys.len()) {
            return Err(HostFault::OtherSize);
        }
        if keys.is_empty() {
            self.enter_alone(bytes, event)
        } else {
            self.enter_with_keys(bytes, keys, event)
        }
    }

    /// The number of what an event answers that was just entered.
    fn number_of(&self, outcome: Result<(), HostFault>) -> i32
        ensures { result ≡ answer_number (answer_of outcome self.now.subsystem.kept) }
    {
        match outcome {
            Err(fault) => refusal_number(fault),
            Ok(()) => match self.subsystem.last_reply() {
                Some(reply) => reply_number(reply.parts().0),
                None => 0,
            },
        }
    }

    /// The same event, and the number of its answer.
    pub fn enter(&mut self, bytes: &mut [u8], keys: &mut [u8], event: &Event) -> i32
        ensures { Enters self.old bytes.old keys.old event.now result self.new bytes.new keys.new }
    {
        let outcome = self.perform(bytes, keys, event);
        self.number_of(outcome)
    }

    /// What an event answers that was just entered, with its own bytes.
    pub fn answer(&self, outcome: Result<(), HostFault>) -> Result<Reply, HostFault>
        ensures { result ≡ answer_of outcome self.now.subsystem.kept }
    {
        outcome?;
        match self.subsystem.last_reply() {
            Some(reply) => Ok(reply.own()),
            None => Ok(Reply::Done),
        }
    }

    /// An instruction on a subchannel, with its operand by value, as `ChannelSubsystem::execute_by_value` has it.
    pub fn execute_by_value(
        &mut self,
        cpu: Cpu,
        subchannel: u32,
        instruction: &ByValue,
    ) -> Result<Answered, HostFault>
        ensures stepped { IsGivenStep TakesNext self.old.subsystem cpu subchannel instruction.now result self.new.subsystem }
        ensures keys { self.new.keys ≡ self.old.keys }
        ensures prefixes { self.new.prefixes ≡ self.old.prefixes }
    {
        self.subsystem
            .execute_by_value(cpu, subchannel, instruction)
    }

    /// An instruction that names no subchannel, with its operand by value, as `ChannelSubsystem::execute_other_by_value` has it.
    pub fn execute_other_by_value(
        &mut self,
        cpu: Cpu,
        instruction: OtherByValue,
    ) -> Result<PlainReply, HostFault>
        ensures stepped { IsOtherGivenStep TakesNext self.old.subsystem cpu instruction result self.new.subsystem }
        ensures keys { self.new.keys ≡ self.old.keys }
        ensures prefixes { self.new.prefixes ≡ self.old.prefixes }
    {
        self.subsystem.execute_other_by_value(cpu, instruction)
    }
}
