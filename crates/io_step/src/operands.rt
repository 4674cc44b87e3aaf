//! The operands of instructions in storage: where they stand, how they are tested, and what is taken from them.

ghost use Rattle.io_step.specs.Operands.{HasOrb, HasWord, from_storage};
ghost use Rattle.schib_block.specs.Modify.{IsAllowedPmcw};
ghost use Rattle.schib_block.specs.Reading.{pmcw_of_words};
ghost use Rattle.schib_block.specs.SchibTable.{ShowsPmcw};
ghost use Rattle.storage_keys.specs.Storage.{operand_at, operand_check};
ghost use Rattle.zbits.specs.Words.{words_of};
ghost use Rattle.std.specs.Prelude.{◌≡◌, ◌<◌, ◌≤◌, ◌+◌, length, Err, IfErr, IfOk, Ok, OnOk};

use chan_model::fault::Fault;
use chan_model::names::Cpu;
use orb_block::{ORB_BYTES, Orb};
use schib_block::SCHIB_BYTES;
use schib_block::words::PmcwWords;
use storage_keys::MainStorage;
use zbits::be_words;

/// The boundary of a word, on which all but one of the operands must be.
pub const WORD: u32 = 4;

/// The real address of the subchannel-information block that enabling modifies from.
pub const ENABLE_BLOCK: u32 = 0xF00;

/// The real address of the second word of that block.
pub const ENABLE_WORD: u32 = 0xF04;

/// Tests an operand: it must be on its boundary, and then in storage.
pub fn check_operand<M: MainStorage>(
    storage: &M,
    cpu: Cpu,
    address: u32,
    bytes: usize,
    boundary: u32,
) -> Result<(), Fault>
    requires { 0 < boundary }
    ensures checked { result ≡ from_storage (operand_check (M.contents storage.now) cpu address bytes boundary) }
    ensures inside { OnOk result (0 < bytes → address + bytes ≤ length (M.contents storage.now).bytes) }
{
    storage
        .check_operand(cpu.number(), address, bytes, boundary)
        .map_err(Fault::Storage)
}

/// Fetches an operand, which must be on a word boundary, and then in storage.
pub fn operand<M: MainStorage, const BYTES: usize>(
    storage: &M,
    cpu: Cpu,
    address: u32,
) -> Result<[u8; BYTES], Fault>
    ensures { result ≡ from_storage (operand_at (M.contents storage.now) cpu address BYTES 4) }
{
    storage
        .operand::<BYTES>(cpu.number(), address, WORD)
        .map_err(Fault::Storage)
}

/// The operation-request block that an operand is. Operand where it is one that is not allowed.
pub fn allowed_orb(image: &[u8; ORB_BYTES]) -> Result<Orb, Fault>
    ensures { HasOrb (Ok image.now) result }
{
    Orb::read(image).map_err(|_| Fault::Operand)
}

/// The words of the path-management-control word that a subchannel-information block has, whatever their reserved bits:
/// this is all that MODIFY SUBCHANNEL looks at.
pub fn word_in(image: &[u8; SCHIB_BYTES]) -> [u32; 7]
    ensures shown { ShowsPmcw image.now (pmcw_of_words result) }
    ensures words { result ≡ words_of 7 image.now }
{
    let [parameter, controls, masks, block, front, back, last, ..] = be_words::<13>(image);
    [parameter, controls, masks, block, front, back, last]
}

/// The words of the path-management-control word of a subchannel-information block, where MODIFY SUBCHANNEL takes it. Operand
/// where it does not.
pub fn allowed_word(image: &[u8; SCHIB_BYTES]) -> Result<[u32; 7], Fault>
    ensures word { IfOk result (λ given. HasWord (Ok image.now) (Ok (pmcw_of_words given))) }
    ensures refused { IfErr result (λ f. HasWord (Ok image.now) (Err f)) }
    ensures allowed { IfOk result (λ given. IsAllowedPmcw (pmcw_of_words given)) }
{
    let given = word_in(image);
    if PmcwWords::is_allowed(&given) {
        Ok(given)
    } else {
        Err(Fault::Operand)
    }
}
