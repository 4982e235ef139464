//! A board's bytes: the rows in order, each followed by byte 10.
ghost use Rattle.std.specs.Prelude.{◌≡◌, ◌^◌, ◌<◌, length};
ghost use Rattle.std.specs.List.{slice_get};
ghost use Rattle.board.specs.Row.{bytes_of, lengths_of};

use crate::board::Board;

// How many bytes the first rows have, without the byte 10 behind each.
fn lengths_sum<B: Board>(board: &B, rows: usize) -> usize
    requires { lengths_of (B.Board.rows board.now) rows < 2 ^ 64 }
    ensures { result ≡ lengths_of (B.Board.rows board.now) rows }
{
    (0..rows).map(|row| board.length(row).unwrap_or(0)).sum()
}

/// How many bytes a board has.
pub fn bytes_len<B: Board>(board: &B) -> usize
    ensures { result ≡ length (bytes_of (B.Board.rows board.now)) }
{
    let rows = board.count();
    lengths_sum(board, rows) + rows
}

/// The byte at a place, or none behind the last.
pub fn byte_at<B: Board>(board: &B, place: usize) -> Option<u8>
    ensures { result ≡ slice_get (bytes_of (B.Board.rows board.now)) place }
{
    // The answer comes from within a row, so a loop that carries what is left is as plain as a chain.
    let mut left = place;
    for row in 0..board.count() {
        let length = board.length(row)?;
        if left < length {
            return board.byte(row, left);
        }
        if left == length {
            return Some(10);
        }
        left = left - length - 1;
    }
    None
}
