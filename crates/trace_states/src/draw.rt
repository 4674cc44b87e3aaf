//! The characters that states are drawn with, and the width of their names.

use step_records::style::Drawing;

/// The width of the names of rows, with the blank that follows them.
pub const NAMES: usize = 31;

/// A bit or a state that is on.
pub fn on(drawing: Drawing) -> &'static [u8] {
    match drawing {
        Drawing::Drawn => "█".as_bytes(),
        Drawing::Ascii => b"#",
    }
}

/// A bit or a state that is off, a wire without signals, or a line of no letter.
pub fn off(drawing: Drawing) -> &'static [u8] {
    match drawing {
        Drawing::Drawn => "·".as_bytes(),
        Drawing::Ascii => b".",
    }
}

/// Down to a unit.
pub fn down(drawing: Drawing) -> &'static [u8] {
    match drawing {
        Drawing::Drawn => "▼".as_bytes(),
        Drawing::Ascii => b"v",
    }
}

/// Up from a unit.
pub fn up(drawing: Drawing) -> &'static [u8] {
    match drawing {
        Drawing::Drawn => "▲".as_bytes(),
        Drawing::Ascii => b"^",
    }
}

/// A channel path that goes down.
pub fn cross(drawing: Drawing) -> &'static [u8] {
    match drawing {
        Drawing::Drawn => "╳".as_bytes(),
        Drawing::Ascii => b"X",
    }
}

/// Where a name was cut.
pub fn mark(drawing: Drawing) -> &'static [u8] {
    match drawing {
        Drawing::Drawn => "…".as_bytes(),
        Drawing::Ascii => b"~",
    }
}
