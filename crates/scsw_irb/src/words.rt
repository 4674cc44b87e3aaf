//! The words of a subchannel-status word, and what masks do to them (SA22-7832, chapter 16).

ghost use Rattle.std.specs.Prelude.{◌≡◌, ◌<◌, ◌^◌, map, IsTrue};
ghost use Rattle.std.specs.Int.RustNames.{bit_and};
ghost use Rattle.zbits.specs.Flags.{all_of, matched, picked, some_of};
ghost use Rattle.zbits.specs.Layout.{word_of};
ghost use Rattle.scsw_irb.specs.ScswTable.{scsw_tables};
ghost use Rattle.scsw_irb.specs.Empty.{zero_scsw};
ghost use Rattle.scsw_irb.specs.Ranges.{IsScswInRange};
ghost use Rattle.scsw_irb.specs.ScswChanges.{changed_scsw, chosen_scsw, flags_from_8, is_change, is_keep};

use crate::scsw::Scsw;
use std::marker::Model;

/// A subchannel-status word as its three words.
#[derive(Clone, Copy)]
pub struct ScswWords {
    words: [u32; 3],
}

impl Model for ScswWords {
    ghost use Rattle.scsw_irb.specs.declared.scsw.Scsw.{Scsw};
    ghost use Rattle.scsw_irb.specs.ScswWords.{AreScswWords, scsw_of_words};

    ghost Value = { Scsw };

    ghost view = { λ s. scsw_of_words s.words };

    ghost invariant = { λ s. AreScswWords s.words };

    ghost use Rattle.std.specs.Prelude.{map};
    ghost use Rattle.zbits.specs.Layout.{word_of};
    ghost use Rattle.scsw_irb.specs.ScswTable.{scsw_tables};

    ghost inverse = { λ s. record { words = map word_of (scsw_tables s) } };

    ghost use Rattle.std.proofs.Common.{ap, sym};
    ghost use Rattle.scsw_irb.specs.ScswPacking.{words-are};

    ghost inverse_ok = { λ a h. ap (λ ws. record { words = ws }) (sym (words-are a.words h)) };
}

impl ScswWords {
    /// The three words of the image.
    pub fn words(&self) -> &[u32; 3]
        ensures { result.now ≡ map word_of (scsw_tables self.now) }
    {
        &self.words
    }

    /// Clears the bits of one mask of word 0, and sets those of another.
    pub fn change(&mut self, clear: u32, set: u32)
        requires { IsTrue (is_change clear set) }
        ensures { self.new ≡ changed_scsw clear set self.old }
    {
        self.words[0] = self.words[0] & !clear | set;
    }

    /// Takes a given status word, but for the bits of word 0 that are kept.
    #[inline(always)]
    pub fn replace(&mut self, keep: u32, given: Scsw)
        requires { IsTrue (is_keep keep) }
        ensures { self.new ≡ chosen_scsw keep self.old given }
    {
        let given = ScswWords::of(given);
        let [controls, command_address, statuses] = given.words;
        self.words = [
            self.words[0] & keep | controls & !keep,
            command_address,
            statuses,
        ];
    }

    /// Whether one of the flags of a mask is one; the mask has bits from 8 on.
    pub fn any(&self, mask: u32) -> bool
        requires { mask < 2 ^ 24 }
        ensures { result ≡ some_of (picked mask 8 (flags_from_8 self.now)) }
    {
        self.words[0] & mask != 0
    }

    /// Whether the flags of a mask are as in a pattern; the mask has bits from 8 on.
    pub fn shows(&self, mask: u32, pattern: u32) -> bool
        requires mask { mask < 2 ^ 24 }
        requires pattern { bit_and mask pattern ≡ pattern }
        ensures { result ≡ all_of (matched mask pattern 8 (flags_from_8 self.now)) }
    {
        self.words[0] & mask == pattern
    }

    /// S: a command may suspend the program.
    pub fn may_suspend(&self) -> bool
        ensures { result ≡ self.now.suspend }
    {
        self.words[0] & 0x800_0000 != 0
    }

    /// The status word of all zeros.
    pub fn zero() -> ScswWords
        ensures { result ≡ zero_scsw }
    {
        ScswWords { words: [0; 3] }
    }

    /// The words of a status word.
    #[inline(always)]
    pub fn of(scsw: Scsw) -> ScswWords
        ensures { result ≡ scsw }
    {
        is_in_range(&scsw);
        let [controls, command_address, statuses] = scsw.words();
        ScswWords {
            words: [controls, command_address, statuses],
        }
    }

    /// The status word as a record.
    pub fn scsw(&self) -> Scsw
        ensures { result ≡ self.now }
    {
        let [controls, command_address, statuses] = self.words;
        Scsw::of_fields(controls, command_address, statuses)
    }
}

/// The numbers of a status word are those of their types. A law, with nothing to do.
fn is_in_range(scsw: &Scsw)
    ensures { IsScswInRange scsw.now }
{
    let _address = scsw.command_address;
    let _device = scsw.device_status.bits();
    let _subchannel = scsw.subchannel_status.bits();
    let _count = scsw.count;
}
