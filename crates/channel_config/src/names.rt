//! The names of subchannels.

ghost use Rattle.std.specs.Prelude.{◌≡◌, ◌<◌, IfSome};
ghost use Rattle.channel_config.specs.SubchannelWords as spec;

use zbits::{field, flag};

/// A subchannel: its set, 0 to 3, and its number in the set.
#[derive(Clone, Copy, Debug, PartialEq, Eq)]
pub struct SubchannelId {
    pub set: u8,
    pub number: u16,
}

/// The subchannel that a subsystem-identification word names where there are `sets` sets (SA22-7832, chapter 13).
///
/// Bits 13 and 14 of the word are the set, bits 16 to 31 the number. None where bits 0 to 12 are not zero, bit 15 is not
/// one, or there is no such set.
pub fn subchannel_named(sets: u8, word: u32) -> Option<SubchannelId>
    ensures value { result ≡ spec.subchannel_named sets word }
    ensures set { IfSome result (λ id. id.set < sets) }
{
    let set = field(word, 13, 14) as u8;
    if field(word, 0, 12) == 0 && flag(word, 15) && set < sets {
        Some(SubchannelId {
            set,
            number: field(word, 16, 31) as u16,
        })
    } else {
        None
    }
}
