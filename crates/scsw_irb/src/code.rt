//! The I/O-interruption code (SA22-7832, chapter 16).

ghost use Rattle.std.specs.Prelude.{◌≡◌, ◌<◌, ◌↔◌, [], ◌∷◌, map, slice_index, IsSome, IfSome};
ghost use Rattle.zbits.specs.Bits.{field_of};
ghost use Rattle.zbits.specs.Layout as layout_spec;
ghost use Rattle.zbits.specs.Layout.{AllShow};

use zbits::field;
use zbits::layout::{at, flag_at, word_of, zeros};

/// Which subchannel asks for the interruption, and what its program and its mode say.
#[derive(Clone, Copy, Debug, PartialEq, Eq)]
pub struct IntCode {
    /// The subchannel set: bits 13 and 14 of the subsystem-identification word.
    pub set: u8,
    /// The subchannel number: bits 16 to 31 of that word.
    pub subchannel: u16,
    /// The interruption parameter.
    pub parameter: u32,
    /// The interruption subclass: bits 2 to 4 of the interruption-identification word.
    pub subclass: u8,
    ghost set_fits: { set < 4 },
    ghost subclass_fits: { subclass < 8 },
}

impl IntCode {
    ghost use Rattle.scsw_irb.specs.CodeTable.{IsCode, code_tables};

    /// The three words of the code: the subsystem-identification word, the parameter and the
    /// interruption-identification word.
    pub fn words(&self) -> [u32; 3]
        ensures { result ≡ map layout_spec.word_of (code_tables self.now) }
    {
        let identification = [
            zeros(0, 12),
            at(13, 14, u32::from(self.set)),
            flag_at(15, true),
            at(16, 31, u32::from(self.subchannel)),
        ];
        let interruption = [
            zeros(0, 1),
            at(2, 4, u32::from(self.subclass)),
            zeros(5, 31),
        ];
        [
            word_of(&identification),
            self.parameter,
            word_of(&interruption),
        ]
    }

    /// The code that three words are. It is `None` where bits 0 to 12 of the first are not zero or its
    /// bit 15 is not one, and where a bit of the last but 2 to 4 is one.
    pub fn of_words(words: &[u32; 3]) -> Option<IntCode>
        ensures allowed { IsSome result ↔ IsCode words.now }
        ensures found { IfSome result (λ code. words.now ≡ map layout_spec.word_of (code_tables code)) }
    {
        let [identification, parameter, interruption] = *words;
        if field(identification, 0, 12) != 0 || field(identification, 15, 15) != 1 {
            return None;
        }
        if field(interruption, 0, 1) != 0 || field(interruption, 5, 31) != 0 {
            return None;
        }
        Some(IntCode::of_fields(identification, parameter, interruption))
    }

    fn of_fields(identification: u32, parameter: u32, interruption: u32) -> IntCode
        requires zeros { field_of identification 0 12 ≡ 0 }
        requires one { field_of identification 15 15 ≡ 1 }
        requires left { field_of interruption 0 1 ≡ 0 }
        requires right { field_of interruption 5 31 ≡ 0 }
        ensures { AllShow (identification ∷ parameter ∷ interruption ∷ []) (code_tables result) }
    {
        IntCode {
            set: field(identification, 13, 14) as u8,
            subchannel: field(identification, 16, 31) as u16,
            parameter,
            subclass: field(interruption, 2, 4) as u8,
        }
    }
}
