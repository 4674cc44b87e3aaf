//! The walk through a channel program, one block at a time (SA22-7832, chapter 15).
#![tactic(auto)]

ghost use Rattle.std.specs.Prelude.{◌≡◌, ◌+◌, ◌<◌, ◌^◌, ◌↔◌, Some, IsSome, IfOk, IfErr, OnOk};
ghost use Rattle.ccw_walk.specs.Sequences.{Nothing, ◌▸◌};
ghost use Rattle.ccw_walk.specs.Acts.{Block, Unfetched, Used_up, End};
ghost use Rattle.ccw_walk.specs.Blocks.{reads};
ghost use Rattle.ccw_walk.specs.Positions.{walk_position, after_act, after_acts};
ghost use Rattle.ccw_walk.specs.Fetching.{fetch_act};
ghost use Rattle.ccw_walk.specs.Advancing.{advance_acts, advance_of_act, advance_of_acts};
ghost use Rattle.ccw_walk.specs.Fetching as fetching;
ghost use Rattle.storage_keys.specs.Storage.{fetched as storage_fetched};
ghost use Rattle.ccw_walk.specs.Going.{GoesOn};

pub mod check;
pub mod law;
pub mod program;
mod reading;

use crate::check::Check;
use crate::law::{advances, positions};
use crate::program::{Advance, Ended, Latest, Reading, Role};
use orb_block::Orb;
use reading::reading;
use std::marker::Model;
use storage_keys::{MainStorage, StorageFault};

/// How many bytes a block has.
const BLOCK: u32 = 8;

/// Where a program stands.
#[derive(Clone, Copy)]
pub struct Walk {
    orb: Orb,
    role: Role,
    latest: Option<Latest>,
    next: Option<u32>,
    tried: u32,
}

impl Model for Walk {
    ghost use Rattle.std.specs.Prelude.{◌+◌, ◌<◌, ◌^◌, IfSome};
    ghost use Rattle.ccw_walk.specs.Positions.{WalkPosition};

    ghost Value = { WalkPosition };

    ghost view = { λ w. record { orb = w.orb; role = w.role; latest = w.latest; next = w.next; tried = w.tried } };

    ghost inverse = { λ p. record { orb = p.orb; role = p.role; latest = p.latest; next = p.next; tried = p.tried } };

    ghost invariant = { λ w. IfSome w.latest (λ last. last.address < 2 ^ 31) × IfSome w.next (λ address. address < 2 ^ 31 + 16) };
}

impl Walk {
    /// A program of which nothing was fetched: its first block is next.
    pub fn start(orb: Orb) -> Walk
        ensures { result ≡ walk_position orb Nothing }
    {
        Walk {
            orb,
            role: Role {
                first: true,
                after_transfer: false,
                chained: false,
            },
            latest: None,
            next: Some(orb.program),
            tried: orb.program,
        }
    }

    /// The absolute address of the next block, where one is to be fetched now: at first, and after a
    /// transfer in channel, a suspension, a count used up under data chaining, and a command that
    /// ended under command chaining.
    pub fn next(&self) -> Option<u32>
        ensures { result ≡ self.now.next }
    {
        self.next
    }

    /// The address that the subchannel status shows (chapter 16): 8 bytes past the last block whose
    /// fetch was tried, before any that of the program.
    pub fn tried(&self) -> u32
        ensures { result ≡ self.now.tried }
    {
        self.tried
    }

    /// The operation-request block of the program.
    pub fn orb(&self) -> Orb
        ensures { result ≡ self.now.orb }
    {
        self.orb
    }

    /// The last block that took control.
    pub fn latest(&self) -> Option<Latest>
        ensures { result ≡ self.now.latest }
    {
        self.latest
    }

    /// The next block was fetched from its address: whether it is a transfer in channel, takes
    /// control, suspends or shows a program check.
    pub fn fetched(&mut self, address: u32, bytes: &[u8; 8]) -> Reading
        requires next { self.old.next ≡ Some address }
        requires inside { address < 2 ^ 31 }
        ensures reading { result ≡ reads self.old.orb self.old.role bytes.now }
        ensures after { self.new ≡ after_act self.old (Block address bytes.now) }
        ensures goes_on { GoesOn self.old (Nothing ▸ Block address bytes.now) self.new }
    {
        let reading = reading(self.orb, self.role, bytes);
        self.tried = address + BLOCK;
        match reading {
            Reading::Transfers(target) => {
                self.role = Role {
                    first: false,
                    after_transfer: true,
                    chained: self.role.chained,
                };
                self.next = Some(target);
            }
            Reading::Takes(ccw) => {
                self.role = Role {
                    first: false,
                    after_transfer: false,
                    chained: ccw.chain_data,
                };
                self.latest = Some(Latest { address, ccw });
                self.next = None;
            }
            Reading::Suspends => {}
            Reading::Shows => self.next = None,
        }
        reading
    }

    /// The next block can't be fetched from its address: the check ends the program.
    pub fn unfetched(&mut self, address: u32, check: Check)
        requires { self.old.next ≡ Some address }
        ensures after { self.new ≡ after_act self.old (Unfetched address check) }
        ensures goes_on { GoesOn self.old (Nothing ▸ Unfetched address check) self.new }
    {
        let _ = check;
        self.next = None;
        self.tried = address + BLOCK;
    }

    /// The count of the last block that took control is used up. Where it chains data, the next
    /// block is 8 bytes on.
    pub fn used_up(&mut self)
        ensures after { self.new ≡ after_act self.old Used_up }
        ensures goes_on { GoesOn self.old (Nothing ▸ Used_up) self.new }
    {
        self.next = match self.latest {
            Some(latest) if latest.ccw.chain_data => Some(latest.address + BLOCK),
            _ => None,
        };
    }

    /// The command ended. Where its last block chains commands and not data, and the ending status
    /// lets the program go on, the next block is 8 bytes on, or 16 with status modifier.
    pub fn device_end(&mut self, ended: Ended)
        ensures after { self.new ≡ after_act self.old (End ended) }
        ensures goes_on { GoesOn self.old (Nothing ▸ End ended) self.new }
    {
        self.next = match self.latest {
            Some(latest) if ended.goes_on && latest.ccw.chain_command && !latest.ccw.chain_data => {
                let blocks = if ended.modifier { 2 } else { 1 };
                Some(latest.address + blocks * BLOCK)
            }
            _ => None,
        };
    }

    /// Goes on where a block is next: fetches it with the key of the operation-request block, and
    /// where it is a transfer in channel the block at its target too. None where no block is next, and
    /// then nothing changes.
    ///
    /// A fetch that the key refuses is a protection check. A block outside storage is a program
    /// check, and so is a first one off a doubleword boundary, or past 24 bits in format 0.
    pub fn advance<M: MainStorage>(&mut self, storage: &M) -> Option<Advance>
        ensures answer { result ≡ advance_of_acts self.old (advance_acts (M.contents storage.now) self.old) }
        ensures answered { IsSome result ↔ IsSome self.old.next }
        ensures after { self.new ≡ after_acts self.old (advance_acts (M.contents storage.now) self.old) }
        ensures goes_on { GoesOn self.old (advance_acts (M.contents storage.now) self.old) self.new }
    {
        positions();
        advances();
        let address = self.next?;
        if let Some(advance) = self.step(storage, address) {
            return Some(advance);
        }
        let target = self.next?;
        self.step(storage, target)
    }

    /// Fetches the next block. None where it is a transfer in channel.
    fn step<M: MainStorage>(&mut self, storage: &M, address: u32) -> Option<Advance>
        requires { self.old.next ≡ Some address }
        ensures answer { result ≡ advance_of_act self.old (fetch_act (M.contents storage.now) self.old.orb self.old.role address) }
        ensures after { self.new ≡ after_act self.old (fetch_act (M.contents storage.now) self.old.orb self.old.role address) }
    {
        match self.block_at(storage, address) {
            Err(check) => {
                self.unfetched(address, check);
                Some(Advance::Stops(check))
            }
            Ok(bytes) => match self.fetched(address, &bytes) {
                Reading::Transfers(_) => None,
                Reading::Takes(ccw) => Some(Advance::Takes(ccw)),
                Reading::Suspends => Some(Advance::Suspends),
                Reading::Shows => Some(Advance::Stops(Check::Program)),
            },
        }
    }

    fn block_at<M: MainStorage>(&self, storage: &M, address: u32) -> Result<[u8; 8], Check>
        ensures fetched { IfOk result (λ bytes. fetch_act (M.contents storage.now) self.now.orb self.now.role address ≡ Block address bytes) }
        ensures refused { IfErr result (λ check. fetch_act (M.contents storage.now) self.now.orb self.now.role address ≡ Unfetched address check) }
        ensures inside { OnOk result (address < 2 ^ 31) }
    {
        if self.role.first && is_program_misplaced(self.orb, address) {
            return Err(Check::Program);
        }
        match fetch_block(storage, self.orb.key, address) {
            Ok(bytes) => Ok(bytes),
            Err(fault) => Err(Check::of(fault)),
        }
    }
}

fn is_program_misplaced(orb: Orb, address: u32) -> bool
    ensures { result ≡ fetching.is_program_misplaced orb address }
{
    address % BLOCK != 0 || !orb.format_one && address >= 1 << 24
}

fn fetch_block<M: MainStorage>(storage: &M, key: u8, address: u32) -> Result<[u8; 8], StorageFault>
    ensures fetched { result ≡ storage_fetched (M.contents storage.now) key address 8 }
    ensures inside { OnOk result (address < 2 ^ 31) }
{
    let bytes = storage.fetch(key, address, 8)?;
    let size = storage.size();
    prove!(address < size);
    let mut block = [0; 8];
    block.copy_from_slice(bytes);
    Ok(block)
}
