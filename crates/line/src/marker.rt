//! What stands before an item's first row.
ghost use Rattle.std.specs.Prelude.{◌≡◌};
ghost use Rattle.std.specs.Str.{IsAscii};
ghost use Rattle.chars.specs.Widths.{total_columns};
ghost use Rattle.line.specs.Markers.{marker_text};

use arrayvec::ArrayString;
use chars::{CharTable, text_width};
use itoa::Buffer;

/// The most bytes of a marker: the twenty digits of the largest number, a dot and a space.
const MARKER_MOST: usize = 22;

/// The marker of an item: two kinds with names, since a bullet is no number that is missing.
#[derive(Clone, Copy, PartialEq, Eq, Debug)]
pub enum Marker {
    /// A dash and a space, in a bullet list.
    Bullet,
    /// The number, a dot and a space, in a numbered list.
    Number(u64),
}

impl Marker {
    /// The marker's text.
    pub fn text(self) -> ArrayString<MARKER_MOST>
        ensures text { result.bytes ≡ marker_text self }
        ensures ascii { IsAscii result.bytes }
    {
        let mut text = ArrayString::new();
        match self {
            Marker::Bullet => text.push_str("- "),
            Marker::Number(number) => {
                text.push_str(Buffer::new().format(number));
                text.push_str(". ");
            }
        }
        text
    }

    /// How many columns the marker takes.
    pub fn width<C: CharTable>(self, table: &C) -> u8
        ensures { result ≡ total_columns (C.CharTable.columns table.now) (marker_text self) }
    {
        text_width(table, self.text().as_str()) as u8
    }
}
