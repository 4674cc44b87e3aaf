//! The characters that a ladder is drawn with.

ghost use Rattle.std.specs.Prelude.{◌≤◌};

use step_records::style::Drawing;

/// What a rule is made of.
pub fn dash(drawing: Drawing) -> &'static [u8] {
    match drawing {
        Drawing::Drawn => "─".as_bytes(),
        Drawing::Ascii => b"-",
    }
}

/// The longest shaft of an arrow: a half of the wires without two blanks and its point.
pub const LONGEST: usize = 17;

/// The shaft of an arrow, of so many dashes.
pub fn shaft(drawing: Drawing, dashes: usize) -> &'static [u8]
    requires { dashes ≤ 17 }
{
    match drawing {
        Drawing::Drawn => &"─────────────────".as_bytes()[..3 * dashes],
        Drawing::Ascii => &b"-----------------"[..dashes],
    }
}

/// The point of an arrow to the right.
pub fn right(drawing: Drawing) -> &'static [u8] {
    match drawing {
        Drawing::Drawn => "▶".as_bytes(),
        Drawing::Ascii => b">",
    }
}

/// The point of an arrow to the left.
pub fn left(drawing: Drawing) -> &'static [u8] {
    match drawing {
        Drawing::Drawn => "◀".as_bytes(),
        Drawing::Ascii => b"<",
    }
}

/// The middle of the wires in a row without a signal.
pub fn idle(drawing: Drawing) -> &'static [u8] {
    match drawing {
        Drawing::Drawn => "┊".as_bytes(),
        Drawing::Ascii => b"|",
    }
}

/// Where a signal ends that is taken by nobody.
pub fn cross(drawing: Drawing) -> &'static [u8] {
    match drawing {
        Drawing::Drawn => "╳".as_bytes(),
        Drawing::Ascii => b"X",
    }
}

/// Where a text was cut.
pub fn mark(drawing: Drawing) -> &'static [u8] {
    match drawing {
        Drawing::Drawn => "…".as_bytes(),
        Drawing::Ascii => b"~",
    }
}
