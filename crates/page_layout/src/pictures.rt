//! What the pictures of a page share.

use crate::lanes::Party;
use crate::layout::Layout;
use memory::Supply;
use page_text::marks::{Attribute, Mark, Tag};
use page_text::page::Page;
use record_text::names::put_subchannel;
use record_text::number::put_hexadecimal;

/// A picture begins, of this size.
pub fn begin_picture<M: Supply>(page: &mut Page<'_, M>, width: u64, height: u64) {
    page.begin(Tag::Svg);
    page.measure(Attribute::Width, width);
    page.measure(Attribute::Height, height);
    page.mark(Mark::Attribute(Attribute::ViewBox));
    page.show(b"0 0 ");
    page.number(width);
    page.show(b" ");
    page.number(height);
    page.mark(Mark::Quote);
    page.attribute(Attribute::Role, b"img");
}

/// The name of a party.
pub fn put_name<M: Supply>(page: &mut Page<'_, M>, layout: &Layout<'_>, party: Party) {
    match party {
        Party::Script => {}
        Party::Subchannel(subchannel) => {
            page.show(b"subchannel ");
            put_subchannel(page, &layout.trace.parties, subchannel);
        }
        Party::Unit(unit) => {
            page.show(b"unit ");
            put_hexadecimal(page, unit as u64);
        }
    }
}
