//! What a board is.
ghost use Rattle.std.specs.Prelude.{◌≡◌, ℕ, ◌^◌, ◌<◌, Bool, true, List, [], ◌∷◌, ◌++◌, length, take, is_ok, if◌then◌else◌};
ghost use Rattle.board.specs.Row.{Row as RowHeld, mk_row, margin_at, length_at, byte_of, bytes_of};

use crate::row::Row;

/// A row does not fit.
#[derive(Clone, Copy, PartialEq, Eq, Debug)]
pub struct BoardFault;

/// A board, by the rows that it holds and by what fits beside which rows, which no call changes.
pub trait Board {
    ghost rows: { Self → List RowHeld };

    ghost fits: { Self → List RowHeld → ℕ → Bool };

    /// Appends the row exactly when it fits, and else changes nothing.
    fn put(&mut self, row: Row<'_>) -> Result<(), BoardFault>
        ensures answer { is_ok result ≡ fits self.old (rows self.old) (length row.entry.bytes.now) }
        ensures held { rows self.new ≡ (if is_ok result then rows self.old ++ mk_row row.entry.margin row.entry.bytes.now ∷ [] else rows self.old) }
        ensures kept { fits self.new ≡ fits self.old };

    /// Keeps the first `n` rows, or all if there are fewer.
    fn cut(&mut self, n: usize)
        ensures held { rows self.new ≡ take n (rows self.old) }
        ensures kept { fits self.new ≡ fits self.old };

    /// How many rows there are.
    fn count(&self) -> usize
        ensures { result ≡ length (rows self.now) };

    /// How many bytes of a row are margin.
    fn margin(&self, row: usize) -> Option<usize>
        ensures { result ≡ margin_at (rows self.now) row };

    /// How many bytes a row has.
    fn length(&self, row: usize) -> Option<usize>
        ensures { result ≡ length_at (rows self.now) row };

    /// A byte of a row.
    fn byte(&self, row: usize, place: usize) -> Option<u8>
        ensures { result ≡ byte_of (rows self.now) row place };

    ghost countable: { (b : Self) → length (bytes_of (rows b)) < 2 ^ 64 };

    ghost regains: { (b : Self) (front : List RowHeld) (row : RowHeld) → rows b ≡ front ++ row ∷ [] → fits b front (length row.bytes) ≡ true };

    ghost regains_each: { (b : Self) (front : List RowHeld) (row : RowHeld) (rest : List RowHeld) → rows b ≡ front ++ row ∷ rest → fits b front (length row.bytes) ≡ true };
}
