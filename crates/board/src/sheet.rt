//! A board of one packed byte area and a table of the rows in it, both of a size that is fixed when it is made.
ghost use Rattle.std.specs.Prelude.{◌≡◌, ◌≤◌, true, vec_len, vec_capacity};
ghost use Rattle.board.specs.Row.{bytes_of};
ghost use Rattle.board.specs.Table.{chained, rows_of};

use crate::entry::Entry;

/// Rows, one behind the other in an area, each with byte 10 behind it, so that a display reads them as one text. The table's
/// size is its capacity.
#[derive(Drop)]
pub struct Sheet {
    pub(crate) entries: Vec<Entry>,
    pub(crate) area: Vec<u8>,
    // The area's capacity is not less; that it stays as it is, `extend_from_slice` does not say.
    pub(crate) bytes_most: usize,
    ghost bytes_fit: { bytes_most ≤ vec_capacity area },
    ghost bytes_held: { vec_len area ≤ bytes_most },
    ghost joined: { chained 0 entries.items (vec_len area) ≡ true },
    ghost packed: { bytes_of (rows_of entries.items area.items) ≡ area.items },
}
