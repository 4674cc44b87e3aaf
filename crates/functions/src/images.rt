//! The blocks of a subchannel, written from its words as they stand.

ghost use Rattle.std.specs.Prelude.{◌≡◌, ◌*◌, ◌^◌};
ghost use Rattle.zbits.specs.Layout as layout_spec;
ghost use Rattle.zbits.specs.Layout.{image_of};
ghost use Rattle.scsw_irb.specs.ScswTable.{extended_table, irb_tables};
ghost use Rattle.schib_block.specs.SchibTable.{schib_tables};
ghost use Rattle.subchannel_model.specs.Store.{pmcw_of, schib_of};
ghost use Rattle.subchannel_model.specs.Test.{irb_of};
ghost use Rattle.functions.specs.Unwired.{unwired_sub};

use crate::state::PackedState;
use schib_block::SCHIB_BYTES;
use schib_block::words::block_of;
use scsw_irb::irb::IRB_BYTES;
use zbits::be_bytes;

impl PackedState {
    /// The subchannel-information block, which STORE SUBCHANNEL stores: both words, and three words of zeros (SA22-7832,
    /// chapter 15; own).
    pub fn schib(&self) -> [u8; SCHIB_BYTES]
        ensures { result ≡ image_of (schib_tables (schib_of (unwired_sub self.now))) }
    {
        block_of(self.pmcw(), self.scsw())
    }

    /// The interruption-response block, which TEST SUBCHANNEL stores: the status word, LPUM, and words of zeros (SA22-7832,
    /// chapter 16; own).
    pub fn irb(&self) -> [u8; IRB_BYTES]
        ensures { result ≡ image_of (irb_tables (irb_of self.now.state)) }
    {
        let [status, address, count] = *self.scsw_words();
        let extended = self.extended_status();
        be_bytes(&[
            status, address, count, extended, 0, 0, 0, 0, 0, 0, 0, 0, 0, 0, 0, 0,
        ])
    }

    /// The first word of the extended status: LPUM is its second byte.
    fn extended_status(&self) -> u32
        ensures { result ≡ layout_spec.word_of (extended_table (irb_of self.now.state).last_path_used) }
    {
        u32::from(self.last_used_mask()) * 0x1_0000
    }
}
