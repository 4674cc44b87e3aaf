//! The words of an operation-request block, and the flags of a channel-command word.

ghost use Rattle.std.specs.Prelude.{◌≤◌};

use ccw_codec::Ccw;
use orb_block::Orb;
use zbits::be_words;

/// The three words of an operation-request block.
pub fn orb_words(orb: &Orb) -> [u32; 3] {
    be_words::<3>(&orb.write())
}

/// The flags of a channel-command word: byte 1 in format 1, byte 4 in format 0.
pub fn ccw_flags(ccw: &Ccw) -> u8 {
    bit(ccw.chain_data, 0x80)
        + bit(ccw.chain_command, 0x40)
        + bit(ccw.suppress_length, 0x20)
        + bit(ccw.skip, 0x10)
        + bit(ccw.program_controlled, 0x08)
        + bit(ccw.indirect, 0x04)
        + bit(ccw.suspend, 0x02)
}

fn bit(flag: bool, value: u8) -> u8
    ensures { result ≤ value }
{
    if flag { value } else { 0 }
}
