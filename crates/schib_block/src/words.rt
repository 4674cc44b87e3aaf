//! The words of a path-management-control word, and what masks do to them (SA22-7832, chapter 15).

ghost use Rattle.std.specs.Prelude.{◌≡◌, ◌<◌, ◌^◌, ◌↔◌, map, ℕ, IsTrue, length, slice_index};
ghost use Rattle.zbits.specs.Bits.{field_of};
ghost use Rattle.zbits.specs.Layout.{image_of, word_of};
ghost use Rattle.schib_block.specs.Ranges.{IsPmcwInRange};
ghost use Rattle.schib_block.specs.SchibTable.{pmcw_tables, schib_tables};
ghost use Rattle.schib_block.specs.Reading.{flag_of, pmcw_of_words};
ghost use Rattle.schib_block.specs.Modify.{IsAllowedPmcw, modified, sense_left};

use crate::SCHIB_BYTES;
use crate::pmcw::Pmcw;
use scsw_irb::words::ScswWords;
use std::marker::Model;
use zbits::{be_bytes, field};

/// The bits of each word that MODIFY SUBCHANNEL takes from the given one; of word 0 it takes all, of words 4 and 5 none, and those
/// of word 6 only where concurrent sense is taken.
const TAKEN_1: u32 = 0x3884_0000;

const TAKEN_2: u32 = 0xFF00_0000;

const TAKEN_3: u32 = 0x0000_FF00;

const TAKEN_6: u32 = 0x0000_0001;

/// The subchannel-information block of two words: what STORE SUBCHANNEL stores.
pub fn block_of(pmcw: &PmcwWords, scsw: &ScswWords) -> [u8; SCHIB_BYTES]
    ensures { result ≡ image_of (schib_tables (record { pmcw = pmcw.now; scsw = scsw.now })) }
{
    let [parameter, controls, masks, block, front, back, last] = *pmcw.words();
    let [status, address, count] = *scsw.words();
    be_bytes(&[
        parameter, controls, masks, block, front, back, last, status, address, count, 0, 0, 0,
    ])
}

/// A path-management-control word as its seven words.
#[derive(Clone, Copy)]
pub struct PmcwWords {
    words: [u32; 7],
}

impl Model for PmcwWords {
    ghost use Rattle.schib_block.specs.declared.pmcw.Pmcw.{Pmcw};
    ghost use Rattle.schib_block.specs.Reading.{pmcw_of_words};
    ghost use Rattle.schib_block.specs.PmcwWords.{ArePmcwWords};

    ghost Value = { Pmcw };

    ghost view = { λ p. pmcw_of_words p.words };

    ghost invariant = { λ p. ArePmcwWords p.words };

    ghost use Rattle.std.specs.Prelude.{map};
    ghost use Rattle.zbits.specs.Layout.{word_of};
    ghost use Rattle.schib_block.specs.SchibTable.{pmcw_tables};

    ghost inverse = { λ p. record { words = map word_of (pmcw_tables p) } };

    ghost use Rattle.std.proofs.Common.{ap, sym};
    ghost use Rattle.schib_block.specs.PmcwPacking.{words-are};

    ghost inverse_ok = { λ a h. ap (λ ws. record { words = ws }) (sym (words-are a.words h)) };
}

impl PmcwWords {
    /// The seven words of the image.
    pub fn words(&self) -> &[u32; 7]
        ensures image { result.now ≡ map word_of (pmcw_tables self.now) }
        ensures value { pmcw_of_words result.now ≡ self.now }
    {
        &self.words
    }

    /// The words of a path-management-control word.
    pub fn of(pmcw: Pmcw) -> PmcwWords
        ensures { result ≡ pmcw }
    {
        is_whole(&pmcw);
        let words = pmcw.words();
        PmcwWords { words }
    }

    /// Whether MODIFY SUBCHANNEL takes a given word: its LM and MM are zero.
    pub fn is_allowed(given: &[u32; 7]) -> bool
        ensures { IsTrue result ↔ IsAllowedPmcw (pmcw_of_words given.now) }
    {
        given[1] & 0x0078_0000 == 0
    }

    /// MODIFY SUBCHANNEL: what it takes of a given word, whatever the bits there that are always zero here. The concurrent-sense
    /// bit is taken where `takes_sense` says so.
    pub fn modify(&mut self, given: &[u32; 7], takes_sense: bool)
        ensures { self.new ≡ modified takes_sense self.old (pmcw_of_words given.now) }
    {
        are_words(given);
        let [_, controls, masks, block, front, back, last] = self.words;
        self.words = [
            given[0],
            controls & !TAKEN_1 | given[1] & TAKEN_1,
            masks & !TAKEN_2 | given[2] & TAKEN_2,
            block & !TAKEN_3 | given[3] & TAKEN_3,
            front,
            back,
            modified_sense(last, given[6], takes_sense),
        ];
    }

    /// LPUM: the path that was last used, as a mask.
    pub fn set_last_used(&mut self, mask: u8)
        ensures { self.new ≡ record self.old { last_used = mask } }
    {
        let [parameter, controls, masks, block, front, back, last] = self.words;
        self.words = [
            parameter,
            controls,
            masks & 0xFFFF_00FF | u32::from(mask) << 8,
            block,
            front,
            back,
            last,
        ];
    }

    /// PAM: the paths that are available, as a mask.
    pub fn set_available(&mut self, mask: u8)
        ensures { self.new ≡ record self.old { available = mask } }
    {
        let [parameter, controls, masks, block, front, back, last] = self.words;
        self.words = [
            parameter,
            controls,
            masks,
            block & 0xFFFF_FF00 | u32::from(mask),
            front,
            back,
            last,
        ];
    }

    /// The interruption parameter is set.
    pub fn set_parameter(&mut self, parameter: u32)
        ensures { self.new ≡ record self.old { parameter = parameter } }
    {
        let [_, controls, masks, block, front, back, last] = self.words;
        self.words = [parameter, controls, masks, block, front, back, last];
    }

    /// LPM: the paths that a program may use, as a mask.
    pub fn set_logical(&mut self, mask: u8)
        ensures { self.new ≡ record self.old { logical = mask } }
    {
        let [parameter, controls, masks, block, front, back, last] = self.words;
        self.words = [
            parameter,
            controls,
            masks & 0x00FF_FFFF | u32::from(mask) << 24,
            block,
            front,
            back,
            last,
        ];
    }

    /// PNOM: the paths that were found not operational, as a mask.
    pub fn set_not_operational(&mut self, mask: u8)
        ensures { self.new ≡ record self.old { not_operational = mask } }
    {
        let [parameter, controls, masks, block, front, back, last] = self.words;
        self.words = [
            parameter,
            controls,
            masks & 0xFF00_FFFF | u32::from(mask) << 16,
            block,
            front,
            back,
            last,
        ];
    }

    /// POM: the paths that are operational, as a mask.
    pub fn set_operational(&mut self, mask: u8)
        ensures { self.new ≡ record self.old { operational = mask } }
    {
        let [parameter, controls, masks, block, front, back, last] = self.words;
        self.words = [
            parameter,
            controls,
            masks,
            block & 0xFFFF_00FF | u32::from(mask) << 8,
            front,
            back,
            last,
        ];
    }

    /// PIM: the paths that are installed, as a mask.
    pub fn installed(&self) -> u8
        ensures { result ≡ self.now.installed }
    {
        field(self.words[2], 24, 31) as u8
    }

    /// E: the subchannel is enabled.
    pub fn is_enabled(&self) -> bool
        ensures { result ≡ self.now.enabled }
    {
        self.words[1] & 0x0080_0000 != 0
    }

    /// D: programs may be in multipath mode.
    pub fn is_multipath(&self) -> bool
        ensures { result ≡ self.now.multipath }
    {
        self.words[1] & 0x0004_0000 != 0
    }

    /// LPM: the paths that a program may use, as a mask.
    pub fn logical(&self) -> u8
        ensures { result ≡ self.now.logical }
    {
        field(self.words[2], 0, 7) as u8
    }

    /// PNOM: the paths that were found not operational, as a mask.
    pub fn not_operational(&self) -> u8
        ensures { result ≡ self.now.not_operational }
    {
        field(self.words[2], 8, 15) as u8
    }

    /// LPUM: the path that was last used, as a mask.
    pub fn last_used(&self) -> u8
        ensures { result ≡ self.now.last_used }
    {
        field(self.words[2], 16, 23) as u8
    }

    /// PAM: the paths that are available, as a mask.
    pub fn available(&self) -> u8
        ensures { result ≡ self.now.available }
    {
        field(self.words[3], 24, 31) as u8
    }

    /// ISC: the interruption subclass, 0 to 7.
    pub fn subclass(&self) -> u8
        ensures value { result ≡ self.now.subclass }
        ensures bound { result < 8 }
    {
        field(self.words[1], 2, 4) as u8
    }

    /// POM: the paths that are operational, as a mask.
    pub fn operational(&self) -> u8
        ensures { result ≡ self.now.operational }
    {
        field(self.words[3], 16, 23) as u8
    }

    /// The interruption parameter.
    pub fn parameter(&self) -> u32
        ensures { result ≡ self.now.parameter }
    {
        self.words[0]
    }
}

/// Word 6 after MODIFY SUBCHANNEL: its bit 31 is that of the given word where it is taken. Its other bits stay.
fn modified_sense(word: u32, given: u32, takes_sense: bool) -> u32
    ensures others { field_of result 0 30 ≡ field_of word 0 30 }
    ensures sense { flag_of result 31 ≡ sense_left takes_sense (flag_of word 31) (flag_of given 31) }
    ensures fits { result < 2 ^ 32 }
{
    if takes_sense {
        with_sense(word, given)
    } else {
        word
    }
}

/// Word 6 with bit 31 of another word.
fn with_sense(word: u32, given: u32) -> u32
    ensures others { field_of result 0 30 ≡ field_of word 0 30 }
    ensures sense { flag_of result 31 ≡ flag_of given 31 }
{
    word & !TAKEN_6 | given & TAKEN_6
}

/// The numbers of a word are those of their types, and it has eight channel-path identifiers. A law, with nothing to do.
fn is_whole(pmcw: &Pmcw)
    ensures range { IsPmcwInRange pmcw.now }
    ensures eight { length pmcw.now.chpids ≡ 8 }
{
    is_in_range(pmcw);
    are_in_range(pmcw);
    are_bytes(&pmcw.chpids);
}

/// The numbers of a word are those of their types. A law, with nothing to do.
fn is_in_range(pmcw: &Pmcw)
    ensures parameter { pmcw.now.parameter < 2 ^ 32 }
    ensures device { pmcw.now.device_number < 2 ^ 16 }
    ensures logical { pmcw.now.logical < 256 }
    ensures not_operational { pmcw.now.not_operational < 256 }
    ensures last_used { pmcw.now.last_used < 256 }
    ensures installed { pmcw.now.installed < 256 }
    ensures block { pmcw.now.measurement_block < 2 ^ 16 }
{
    let _parameter = pmcw.parameter;
    let _device = pmcw.device_number;
    let _logical = pmcw.logical;
    let _not_operational = pmcw.not_operational;
    let _last_used = pmcw.last_used;
    let _installed = pmcw.installed;
    let _block = pmcw.measurement_block;
}

/// The same of two masks. A law, with nothing to do.
fn are_in_range(pmcw: &Pmcw)
    ensures operational { pmcw.now.operational < 256 }
    ensures available { pmcw.now.available < 256 }
{
    let _operational = pmcw.operational;
    let _available = pmcw.available;
}

/// Each is a byte. A law, with nothing to do.
fn are_bytes(ids: &[u8; 8])
    ensures bytes { (path : ℕ) → slice_index ids.now path < 256 }
    ensures eight { length ids.now ≡ 8 }
{
    let _first = ids[0];
}

/// Each is a word. A law, with nothing to do.
fn are_words(words: &[u32; 7])
    ensures { (index : ℕ) → slice_index words.now index < 2 ^ 32 }
{
    let _first = words[0];
}
