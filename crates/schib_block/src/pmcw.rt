//! The path-management-control word (SA22-7832, chapter 15).

ghost use Rattle.std.specs.Prelude.{◌≡◌, ◌<◌, ◌↔◌, [], ◌∷◌, map, IsTrue, IsOk, OnOk, OnErr};
ghost use Rattle.zbits.specs.Bits.{field_of};
ghost use Rattle.zbits.specs.Layout as layout_spec;
ghost use Rattle.zbits.specs.Layout.{AllShow};

use crate::{Operand, SCHIB_BYTES};
use zbits::layout::{at, flag_at, word_of, zeros};
use zbits::{be_words, field};

/// A path-management-control word, of seven words. In each mask of paths, path 0 is leftmost.
#[derive(Clone, Copy, Debug, PartialEq, Eq)]
pub struct Pmcw {
    /// The interruption parameter: word 0.
    pub parameter: u32,
    /// ISC, the interruption subclass: bits 2 to 4 of word 1.
    pub subclass: u8,
    /// E, bit 8: the subchannel is enabled.
    pub enabled: bool,
    /// LM, the limit mode: bits 9 and 10.
    pub limit_mode: u8,
    /// MM, the measurement mode: bits 11 and 12.
    pub measurement_mode: u8,
    /// D, bit 13: programs may be in multipath mode.
    pub multipath: bool,
    /// T, bit 14: the channel subsystem can time the subchannel.
    pub timing: bool,
    /// V, bit 15: the device number is valid.
    pub valid: bool,
    /// The device number: bits 16 to 31.
    pub device_number: u16,
    /// LPM, the paths that may be used: byte 0 of word 2.
    pub logical: u8,
    /// PNOM, the paths that were found not operational: byte 1.
    pub not_operational: u8,
    /// LPUM, the path that was last used: byte 2.
    pub last_used: u8,
    /// PIM, the paths that are installed: byte 3.
    pub installed: u8,
    /// MBI, the measurement-block index: bits 0 to 15 of word 3.
    pub measurement_block: u16,
    /// POM, the paths that are operational: byte 2 of word 3.
    pub operational: u8,
    /// PAM, the paths that are available: byte 3.
    pub available: u8,
    /// The channel-path identifiers (CHPIDs) of paths 0 to 7: words 4 and 5.
    pub chpids: [u8; 8],
    /// S, bit 31 of word 6: concurrent sense.
    pub concurrent_sense: bool,
    ghost subclass_fits: { subclass < 8 },
    ghost limit_fits: { limit_mode < 4 },
    ghost measurement_fits: { measurement_mode < 4 },
}

impl Pmcw {
    ghost use Rattle.schib_block.specs.Modify.{IsAllowedPmcw, modified};
    ghost use Rattle.schib_block.specs.Reading.{flag_of, pmcw_of_image, pmcw_of_words};
    ghost use Rattle.schib_block.specs.SchibTable.{ShowsPmcw, four_bytes, pmcw_tables, word_1, word_3};

    /// The word that a subchannel-information block has, whatever its other bits: this is all that
    /// MODIFY SUBCHANNEL looks at, so no block is refused here.
    pub fn of_schib(image: &[u8; SCHIB_BYTES]) -> Pmcw
        ensures shown { ShowsPmcw image.now result }
        ensures value { result ≡ pmcw_of_image image.now }
    {
        let [parameter, controls, masks, block, front, back, last, ..] = be_words::<13>(image);
        Pmcw::of_words(&[parameter, controls, masks, block, front, back, last])
    }

    /// Whether MODIFY SUBCHANNEL takes the word: LM and MM are zero (own).
    pub fn is_allowed(&self) -> bool
        ensures { IsTrue result ↔ IsAllowedPmcw self.now }
    {
        self.limit_mode == 0 && self.measurement_mode == 0
    }

    /// What MODIFY SUBCHANNEL does: takes from the given word the parameter, the subclass, E, D, LPM and
    /// POM, and nothing else (own), but for the concurrent-sense bit, which is taken where `takes_sense` says so.
    ///
    /// It is refused where the given LM or MM is not zero (own).
    pub fn modify(&mut self, given: &Pmcw, takes_sense: bool) -> Result<(), Operand>
        ensures allowed { IsOk result ↔ IsAllowedPmcw given.now }
        ensures taken { OnOk result (self.new ≡ modified takes_sense self.old given.now) }
        ensures refused { OnErr result (self.new ≡ self.old) }
    {
        if !given.is_allowed() {
            return Err(Operand);
        }
        self.parameter = given.parameter;
        self.subclass = given.subclass;
        self.enabled = given.enabled;
        self.multipath = given.multipath;
        self.logical = given.logical;
        self.operational = given.operational;
        if takes_sense {
            self.concurrent_sense = given.concurrent_sense;
        }
        Ok(())
    }

    /// The seven words of the image.
    pub fn words(&self) -> [u32; 7]
        ensures { result ≡ map layout_spec.word_of (pmcw_tables self.now) }
    {
        let ids = self.chpids;
        [
            self.parameter,
            self.controls(),
            Pmcw::word_of_bytes(
                self.logical,
                self.not_operational,
                self.last_used,
                self.installed,
            ),
            self.block_and_masks(),
            Pmcw::word_of_bytes(ids[0], ids[1], ids[2], ids[3]),
            Pmcw::word_of_bytes(ids[4], ids[5], ids[6], ids[7]),
            word_of(&[zeros(0, 30), flag_at(31, self.concurrent_sense)]),
        ]
    }

    /// The word that seven words are.
    fn of_words(words: &[u32; 7]) -> Pmcw
        ensures shown { AllShow words.now (pmcw_tables result) }
        ensures value { result ≡ pmcw_of_words words.now }
    {
        let [parameter, controls, masks, block, front, back, last] = *words;
        Pmcw {
            parameter,
            subclass: field(controls, 2, 4) as u8,
            enabled: Pmcw::bit(controls, 8),
            limit_mode: field(controls, 9, 10) as u8,
            measurement_mode: field(controls, 11, 12) as u8,
            multipath: Pmcw::bit(controls, 13),
            timing: Pmcw::bit(controls, 14),
            valid: Pmcw::bit(controls, 15),
            device_number: field(controls, 16, 31) as u16,
            logical: field(masks, 0, 7) as u8,
            not_operational: field(masks, 8, 15) as u8,
            last_used: field(masks, 16, 23) as u8,
            installed: field(masks, 24, 31) as u8,
            measurement_block: field(block, 0, 15) as u16,
            operational: field(block, 16, 23) as u8,
            available: field(block, 24, 31) as u8,
            chpids: [
                field(front, 0, 7) as u8,
                field(front, 8, 15) as u8,
                field(front, 16, 23) as u8,
                field(front, 24, 31) as u8,
                field(back, 0, 7) as u8,
                field(back, 8, 15) as u8,
                field(back, 16, 23) as u8,
                field(back, 24, 31) as u8,
            ],
            concurrent_sense: Pmcw::bit(last, 31),
        }
    }

    /// The flag at a bit of a word.
    fn bit(word: u32, index: u32) -> bool
        requires { index < 32 }
        ensures number { layout_spec.bit_number result ≡ field_of word index index }
        ensures test { result ≡ flag_of word index }
    {
        field(word, index, index) == 1
    }

    fn controls(&self) -> u32
        ensures { result ≡ layout_spec.word_of (word_1 self.now) }
    {
        word_of(&[
            zeros(0, 1),
            at(2, 4, u32::from(self.subclass)),
            zeros(5, 7),
            flag_at(8, self.enabled),
            at(9, 10, u32::from(self.limit_mode)),
            at(11, 12, u32::from(self.measurement_mode)),
            flag_at(13, self.multipath),
            flag_at(14, self.timing),
            flag_at(15, self.valid),
            at(16, 31, u32::from(self.device_number)),
        ])
    }

    fn block_and_masks(&self) -> u32
        ensures { result ≡ layout_spec.word_of (word_3 self.now) }
    {
        word_of(&[
            at(0, 15, u32::from(self.measurement_block)),
            at(16, 23, u32::from(self.operational)),
            at(24, 31, u32::from(self.available)),
        ])
    }

    fn word_of_bytes(first: u8, second: u8, third: u8, fourth: u8) -> u32
        ensures { result ≡ layout_spec.word_of (four_bytes first second third fourth) }
    {
        word_of(&[
            at(0, 7, u32::from(first)),
            at(8, 15, u32::from(second)),
            at(16, 23, u32::from(third)),
            at(24, 31, u32::from(fourth)),
        ])
    }
}
