//! Making a row.
ghost use Rattle.std.specs.Prelude.{◌≡◌, min, length};
ghost use Rattle.std.specs.List.{take_while};
ghost use Rattle.board.specs.Row.{first_line, goes_on};

use crate::row::Row;

// How many bytes stand before the first byte 10.
fn line_length(bytes: &[u8]) -> usize
    ensures { result ≡ length (take_while goes_on bytes.now) }
{
    bytes.iter().take_while(|byte| **byte != 10).count()
}

impl<'a> Row<'a> {
    /// The bytes before the first byte 10 as a row, and of these as many as `margin` says, or all, as its margin.
    pub fn new(margin: usize, bytes: &'a [u8]) -> Row<'a>
        ensures bytes { result.bytes.now ≡ first_line bytes.now }
        ensures margin { result.margin ≡ min margin (length (first_line bytes.now)) }
    {
        let end = line_length(bytes);
        let margin = margin.min(end);
        Row {
            margin,
            bytes: &bytes[..end],
        }
    }

    /// How many of the bytes are margin.
    pub fn margin(&self) -> usize
        ensures { result ≡ self.now.margin }
    {
        self.margin
    }

    /// The row's bytes, margin included.
    pub fn bytes(&self) -> &'a [u8]
        ensures { result.now ≡ self.now.bytes.now }
    {
        self.bytes
    }
}
