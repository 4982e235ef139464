//! The parts of a margin.
ghost use Rattle.std.specs.Prelude.{◌≡◌};
ghost use Rattle.line.specs.Margins.{segment_text, segment_columns};

use chars::{CharTable, text_width};

// U+2502 and a space: what stands before each row of a quote.
const QUOTE_PREFIX: &str = "│ ";

const SPACES: [u8; 255] = [b' '; 255];

/// A part of the margin of every row of an element.
#[derive(Clone, Copy)]
pub enum Segment {
    /// The bar of a quote.
    Quote,
    /// So many spaces.
    Indent(u8),
}

impl Segment {
    /// The part's bytes.
    pub fn text(self) -> &'static [u8]
        ensures { result.now ≡ segment_text self }
    {
        match self {
            Segment::Quote => QUOTE_PREFIX.as_bytes(),
            Segment::Indent(columns) => &SPACES[0..columns as usize],
        }
    }

    /// How many columns the part takes.
    pub fn width<C: CharTable>(self, table: &C) -> usize
        ensures { result ≡ segment_columns (C.CharTable.columns table.now) self }
    {
        match self {
            Segment::Quote => text_width(table, QUOTE_PREFIX),
            Segment::Indent(columns) => columns as usize,
        }
    }
}
