//! What the line layer refuses, with the fault of the layer below inside.
ghost use Rattle.std.specs.Prelude.{◌≡◌};
ghost use Rattle.line.specs.declared.fault.LineFault.TheVariants.{Row as row_long, Board as board_full};

use board::BoardFault;
use paint::RowFault;

/// Why a word or a row cannot be laid.
#[derive(Clone, Copy, Debug)]
pub enum LineFault {
    /// A word above 1,024 bytes or 64 pieces, or a code line above 4,096 bytes.
    Held,
    /// A row above 8,192 bytes.
    Row(RowFault),
    /// The board does not take the row.
    Board(BoardFault),
}

impl From<RowFault> for LineFault {
    ghost from_gives = { λ e r. r ≡ row_long e };

    fn from(fault: RowFault) -> LineFault {
        LineFault::Row(fault)
    }
}

impl From<BoardFault> for LineFault {
    ghost from_gives = { λ e r. r ≡ board_full e };

    fn from(fault: BoardFault) -> LineFault {
        LineFault::Board(fault)
    }
}
