//! How wide a text is.
ghost use Rattle.std.specs.Prelude.{◌≡◌};
ghost use Rattle.chars.specs.Widths.{text_width};

use super::table::CharTable;

/// How many columns the text takes: the widths of its characters, added up.
pub fn text_width<T: CharTable>(table: &T, text: &str) -> usize
    ensures { result ≡ text_width (T.CharTable.columns table.now) text.now }
{
    // The sum fits: a text has fewer than 2^63 bytes, and a character at least one byte and at most two columns.
    text.chars().map(|c| usize::from(table.width(c))).sum()
}
