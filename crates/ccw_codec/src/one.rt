//! Blocks of format 1.

ghost use Rattle.std.specs.Prelude.{◌≡◌, ◌↔◌, [], ◌∷◌, Some, None, IsOk, IfOk, IfErr};
ghost use Rattle.zbits.specs.Bits.{field_of};
ghost use Rattle.zbits.specs.Layout.{AllFit, AllShow, image_of};

use crate::fault::{bit, fault_in_1};
use crate::{Ccw, CcwFault};
use zbits::layout::{BitField, at, flag_at, zeros};
use zbits::{be_words, field};

impl Ccw {
    ghost use Rattle.ccw_codec.specs.Block.{ccw_1, ccw_of, fault_of};
    ghost use Rattle.ccw_codec.specs.CcwTable.{ccw_tables_1, first_1, second_1};
    ghost use Rattle.ccw_codec.specs.declared.Format.TheVariants as format;

    pub(crate) fn read_1(block: &[u8; 8]) -> Result<Ccw, CcwFault>
        ensures refused { IfErr result (λ fault. fault_of format.One block.now ≡ Some fault) }
        ensures allowed { IsOk result ↔ (fault_of format.One block.now ≡ None) }
        ensures found { IfOk result (λ ccw. block.now ≡ image_of (ccw_tables_1 ccw)) }
        ensures value { IfOk result (λ ccw. ccw ≡ ccw_of format.One block.now) }
    {
        let [first, second] = be_words::<2>(block);
        match fault_in_1(first, second) {
            Some(fault) => Err(fault),
            None => Ok(Ccw::of_words_1(first, second)),
        }
    }

    fn of_words_1(first: u32, second: u32) -> Ccw
        requires modified { field_of first 15 15 ≡ 0 }
        requires long { field_of second 0 0 ≡ 0 }
        ensures shown { AllShow (first ∷ second ∷ []) (ccw_tables_1 result) }
        ensures value { result ≡ ccw_1 first second }
    {
        Ccw {
            command: field(first, 0, 7) as u8,
            chain_data: bit(first, 8),
            chain_command: bit(first, 9),
            suppress_length: bit(first, 10),
            skip: bit(first, 11),
            program_controlled: bit(first, 12),
            indirect: bit(first, 13),
            suspend: bit(first, 14),
            count: field(first, 16, 31) as u16,
            address: field(second, 1, 31),
        }
    }

    pub(crate) fn front_1(&self) -> [BitField; 10]
        ensures table { result ≡ first_1 self.now }
        ensures fit { AllFit result }
    {
        [
            at(0, 7, u32::from(self.command)),
            flag_at(8, self.chain_data),
            flag_at(9, self.chain_command),
            flag_at(10, self.suppress_length),
            flag_at(11, self.skip),
            flag_at(12, self.program_controlled),
            flag_at(13, self.indirect),
            flag_at(14, self.suspend),
            zeros(15, 15),
            at(16, 31, u32::from(self.count)),
        ]
    }

    pub(crate) fn rest_1(&self) -> [BitField; 2]
        ensures table { result ≡ second_1 self.now }
        ensures fit { AllFit result }
    {
        [zeros(0, 0), at(1, 31, self.address)]
    }
}
