//! What is wrong with the words of a block, and which of its bytes count.

ghost use Rattle.std.specs.Prelude.{◌≡◌, ◌<◌, None};
ghost use Rattle.zbits.specs.Bits.{field_of};
ghost use Rattle.zbits.specs.Layout.{bit_number};
ghost use Rattle.zbits.specs.Words.{word_at};
ghost use Rattle.ccw_codec.specs.Block.{effective_block, fault_0, fault_1, flag_of, target_fault_of};
ghost use Rattle.ccw_codec.specs.declared.Format.TheVariants as format;

use crate::command::is_transfer;
use crate::{CcwFault, Format};
use zbits::field;

/// The code of a transfer in channel.
const TRANSFER: u8 = 8;

/// The block of format 0 with zeros for what does not count.
pub(crate) fn effective(block: &[u8; 8]) -> [u8; 8]
    ensures block { result ≡ effective_block format.Zero block.now }
    ensures ignored { field_of (word_at result 1) 8 15 ≡ 0 }
{
    let [command, high, middle, low, flags, _, left, right] = *block;
    if is_transfer(Format::Zero, command) {
        [TRANSFER, high, middle, low, 0, 0, 0, 0]
    } else {
        [command, high, middle, low, flags, 0, left, right]
    }
}

/// The first fault of two words of format 0.
pub(crate) fn fault_in_0(first: u32, second: u32) -> Option<CcwFault>
    ensures fault { result ≡ fault_0 first second }
    ensures modified { result ≡ None → field_of second 7 7 ≡ 0 }
{
    if bit(second, 7) {
        return Some(CcwFault::ModifiedAddress);
    }
    if is_transfer(Format::Zero, field(first, 0, 7) as u8) {
        return target_fault(field(first, 8, 31));
    }
    if field(second, 16, 31) == 0 {
        return Some(CcwFault::ZeroCount);
    }
    None
}

/// The first fault of two words of format 1.
pub(crate) fn fault_in_1(first: u32, second: u32) -> Option<CcwFault>
    ensures fault { result ≡ fault_1 first second }
    ensures modified { result ≡ None → field_of first 15 15 ≡ 0 }
    ensures long { result ≡ None → field_of second 0 0 ≡ 0 }
{
    if bit(first, 15) {
        return Some(CcwFault::ModifiedAddress);
    }
    if bit(second, 0) {
        return Some(CcwFault::AddressBit);
    }
    if is_transfer(Format::One, field(first, 0, 7) as u8) {
        if field(first, 8, 31) != 0 {
            return Some(CcwFault::TransferFields);
        }
        return target_fault(field(second, 1, 31));
    }
    if field(first, 16, 31) == 0 && bit(first, 8) {
        return Some(CcwFault::ZeroCountChained);
    }
    None
}

fn target_fault(target: u32) -> Option<CcwFault>
    ensures { result ≡ target_fault_of target }
{
    if target % 8 == 0 {
        None
    } else {
        Some(CcwFault::TransferTarget)
    }
}

/// The flag at a bit of a word.
pub(crate) fn bit(word: u32, index: u32) -> bool
    requires { index < 32 }
    ensures number { bit_number result ≡ field_of word index index }
    ensures test { result ≡ flag_of word index }
{
    field(word, index, index) == 1
}
