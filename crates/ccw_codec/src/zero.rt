//! Blocks of format 0.

ghost use Rattle.std.specs.Prelude.{◌≡◌, ◌<◌, ◌^◌, ◌↔◌, [], ◌∷◌, Some, None, IsOk, IfOk, IfErr};
ghost use Rattle.zbits.specs.Bits.{field_of};
ghost use Rattle.zbits.specs.Layout.{AllFit, AllShow, image_of};

use crate::fault::{bit, effective, fault_in_0};
use crate::{Ccw, CcwFault};
use zbits::layout::{BitField, at, flag_at, zeros};
use zbits::{be_words, field};

impl Ccw {
    ghost use Rattle.ccw_codec.specs.Block.{ccw_0, ccw_of, effective_block, fault_of};
    ghost use Rattle.ccw_codec.specs.CcwTable.{ccw_tables_0, first_0, second_0};
    ghost use Rattle.ccw_codec.specs.declared.Format.TheVariants as format;

    pub(crate) fn read_0(block: &[u8; 8]) -> Result<Ccw, CcwFault>
        ensures refused { IfErr result (λ fault. fault_of format.Zero block.now ≡ Some fault) }
        ensures allowed { IsOk result ↔ (fault_of format.Zero block.now ≡ None) }
        ensures found { IfOk result (λ ccw. effective_block format.Zero block.now ≡ image_of (ccw_tables_0 ccw)) }
        ensures value { IfOk result (λ ccw. ccw ≡ ccw_of format.Zero block.now) }
    {
        let [first, second] = be_words::<2>(&effective(block));
        match fault_in_0(first, second) {
            Some(fault) => Err(fault),
            None => Ok(Ccw::of_words_0(first, second)),
        }
    }

    fn of_words_0(first: u32, second: u32) -> Ccw
        requires modified { field_of second 7 7 ≡ 0 }
        requires ignored { field_of second 8 15 ≡ 0 }
        ensures shown { AllShow (first ∷ second ∷ []) (ccw_tables_0 result) }
        ensures value { result ≡ ccw_0 first second }
    {
        Ccw {
            command: field(first, 0, 7) as u8,
            chain_data: bit(second, 0),
            chain_command: bit(second, 1),
            suppress_length: bit(second, 2),
            skip: bit(second, 3),
            program_controlled: bit(second, 4),
            indirect: bit(second, 5),
            suspend: bit(second, 6),
            count: field(second, 16, 31) as u16,
            address: field(first, 8, 31),
        }
    }

    pub(crate) fn front_0(&self) -> [BitField; 2]
        requires { self.now.address < 2 ^ 24 }
        ensures table { result ≡ first_0 self.now }
        ensures fit { AllFit result }
    {
        [at(0, 7, u32::from(self.command)), at(8, 31, self.address)]
    }

    pub(crate) fn rest_0(&self) -> [BitField; 10]
        ensures table { result ≡ second_0 self.now }
        ensures fit { AllFit result }
    {
        [
            flag_at(0, self.chain_data),
            flag_at(1, self.chain_command),
            flag_at(2, self.suppress_length),
            flag_at(3, self.skip),
            flag_at(4, self.program_controlled),
            flag_at(5, self.indirect),
            flag_at(6, self.suspend),
            zeros(7, 7),
            zeros(8, 15),
            at(16, 31, u32::from(self.count)),
        ]
    }
}
