//! A list of puts and cuts, applied to a board.
ghost use Rattle.std.specs.Prelude.{◌≡◌};
ghost use Rattle.board.specs.History.{history, changed, GivesBack, GivesAllBack};

use crate::board::Board;
use crate::row::Row;

/// A change of a board: a row of these bytes is put, with that margin, or all but the first rows are cut.
#[derive(Clone, Copy)]
pub enum Change<'a> {
    Put { margin: usize, bytes: &'a [u8] },
    Cut(usize),
}

// One change.
fn apply_one<B: Board>(board: &mut B, change: Change<'_>)
    ensures rows { B.Board.rows board.new ≡ changed (B.Board.fits board.old) (B.Board.rows board.old) change.entry }
    ensures kept { B.Board.fits board.new ≡ B.Board.fits board.old }
{
    match change {
        Change::Put { margin, bytes } => {
            let _ = board.put(Row::new(margin, bytes));
        }
        Change::Cut(rows) => board.cut(rows),
    }
}

/// Applies the changes in order; a row that does not fit is left out.
pub fn apply<B: Board>(board: &mut B, changes: &[Change<'_>])
    ensures rows { B.Board.rows board.new ≡ history (B.Board.fits board.old) (B.Board.rows board.old) changes.now }
    ensures kept { B.Board.fits board.new ≡ B.Board.fits board.old }
    ensures gives_back { GivesBack (B.Board.fits board.new) (B.Board.rows board.new) }
    ensures gives_all_back { GivesAllBack (B.Board.fits board.new) (B.Board.rows board.new) }
{
    for change in changes {
        apply_one(board, *change);
    }
}
