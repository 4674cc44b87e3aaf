//! How a view is drawn.

/// How a view is drawn.
#[derive(Clone, Copy, PartialEq, Eq)]
pub struct Style {
    pub drawing: Drawing,
    pub widths: Widths,
    pub storage_lines: StorageLines,
}

/// Which characters arrows, bars and crosses are drawn with.
#[derive(Clone, Copy, PartialEq, Eq)]
pub enum Drawing {
    /// Arrows, bars and crosses of Unicode.
    Drawn,
    /// `>`, `<`, `-`, `|`, `X` and `#`.
    Ascii,
}

/// Whether what is wider than its column is cut.
#[derive(Clone, Copy, PartialEq, Eq)]
pub enum Widths {
    /// It ends with an ellipsis.
    Cut,
    /// It is written whole.
    Whole,
}

/// How the lines that only set storage are shown: `put`, `key` and `prefix`.
#[derive(Clone, Copy, PartialEq, Eq)]
pub enum StorageLines {
    /// Several in a row as one.
    Together,
    /// Each by itself.
    Each,
}
