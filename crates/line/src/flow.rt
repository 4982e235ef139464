//! Laying words: each stays on the open row if it has room there, else it goes onto a new one.
ghost use Rattle.std.specs.Prelude.{◌≡◌, ℕ, Bool, List, OnErr};
ghost use Rattle.board.specs.Row.{Row as RowHeld};
ghost use Rattle.links.specs.Tables.{addresses as addresses_in};
ghost use Rattle.paint.specs.Looks.{looks_of};
ghost use Rattle.paint.specs.Rows.{leaving};
ghost use Rattle.std.specs.Option.{option_map};
ghost use Rattle.line.specs.Flow.{stays as stays_on, write_open, emit_space, make_space, make_room, emit_word, flush_word, add_space, hard_break, add_segment, marker_row};
ghost use Rattle.line.specs.Reads.{at_of, pending_of, writer_of, state_of, left};

use crate::emitting::Pen;
use crate::fault::LineFault;
use crate::tables::Tables;
use crate::writer::{LineState, LineWriter, PendingSpace};
use board::Board;
use chars::CharTable;
use links::AddressTable;
use paint::RunAttrs;

// Whether a word stays on a row that has so many columns already: the row, one space and the word are at most as wide as the page.
fn stays(page: usize, row: usize, word: usize) -> bool
    ensures { result ≡ stays_on page row word }
{
    row < page && word < page - row
}

impl LineWriter {
    /// What writes on the open row.
    pub(crate) fn pen<'a>(&self, addresses: &'a AddressTable) -> Pen<'a>
        ensures format { result.format ≡ self.now.format }
        ensures addresses { result.addresses.now ≡ addresses.now }
    {
        Pen {
            format: self.format,
            addresses,
        }
    }

    /// Writes a text on the open row.
    pub(crate) fn write_open(
        &mut self,
        addresses: &AddressTable,
        text: &[u8],
        width: usize,
        desired: &RunAttrs,
    ) -> Result<(), LineFault>
        ensures { (rows : List RowHeld) (fits : List RowHeld → ℕ → Bool) → left result (state_of self.new rows fits) ≡ write_open (addresses_in addresses.now) text.now width (looks_of desired.now) (state_of self.old rows fits) }
    {
        let pen = self.pen(addresses);
        pen.write_run(text, width, desired, &mut self.row)?;
        Ok(())
    }

    // Writes the word in hand on the open row.
    fn emit_word(&mut self, addresses: &AddressTable) -> Result<(), LineFault>
        ensures { (rows : List RowHeld) (fits : List RowHeld → ℕ → Bool) → left result (state_of self.new rows fits) ≡ emit_word (addresses_in addresses.now) (state_of self.old rows fits) }
    {
        let pen = self.pen(addresses);
        pen.write_word(&self.word, &mut self.row)?;
        self.word.clear();
        self.pending_space = None;
        Ok(())
    }

    // Makes room for the word in hand behind a break: one space, or a new row.
    fn make_space<C: CharTable, B: Board>(
        &mut self,
        tables: &Tables<'_, C>,
        board: &mut B,
        space: PendingSpace,
    ) -> Result<(), LineFault>
        ensures { left result (state_of self.new (B.Board.rows board.new) (B.Board.fits board.new)) ≡ make_space (C.CharTable.columns tables.now.chars.now) (addresses_in tables.now.addresses.now) (pending_of space) (state_of self.old (B.Board.rows board.old) (B.Board.fits board.old)) }
    {
        if stays(self.format.width, self.row.column(), self.word.width) {
            return self.write_open(tables.addresses, b" ", 1, &space.desired);
        }
        self.end_line(board)?;
        self.open_line(tables.chars, board)
    }

    // Makes room for the word in hand.
    fn make_room<C: CharTable, B: Board>(
        &mut self,
        tables: &Tables<'_, C>,
        board: &mut B,
    ) -> Result<(), LineFault>
        ensures { left result (state_of self.new (B.Board.rows board.new) (B.Board.fits board.new)) ≡ make_room (C.CharTable.columns tables.now.chars.now) (addresses_in tables.now.addresses.now) (at_of self.old.line) (option_map pending_of self.old.pending_space) (state_of self.old (B.Board.rows board.old) (B.Board.fits board.old)) }
    {
        match (self.line, self.pending_space) {
            (LineState::Open, None) => Ok(()),
            (LineState::Open, Some(space)) => self.make_space(tables, board, space),
            _ => self.open_line(tables.chars, board),
        }
    }

    /// Lays the word in hand, if there is one.
    pub fn flush_word<C: CharTable, B: Board>(
        &mut self,
        tables: &Tables<'_, C>,
        board: &mut B,
    ) -> Result<(), LineFault>
        ensures { left result (state_of self.new (B.Board.rows board.new) (B.Board.fits board.new)) ≡ flush_word (C.CharTable.columns tables.now.chars.now) (addresses_in tables.now.addresses.now) (state_of self.old (B.Board.rows board.old) (B.Board.fits board.old)) }
    {
        if self.word.is_empty() {
            return Ok(());
        }
        self.make_room(tables, board)?;
        self.emit_word(tables.addresses)
    }

    /// Adds a breakable space, with the looks of its surroundings.
    pub fn add_space<C: CharTable, B: Board>(
        &mut self,
        tables: &Tables<'_, C>,
        board: &mut B,
    ) -> Result<(), LineFault>
        ensures { left result (state_of self.new (B.Board.rows board.new) (B.Board.fits board.new)) ≡ add_space (C.CharTable.columns tables.now.chars.now) (addresses_in tables.now.addresses.now) (state_of self.old (B.Board.rows board.old) (B.Board.fits board.old)) }
    {
        self.flush_word(tables, board)?;
        self.pending_space = Some(PendingSpace {
            desired: self.desired_attrs,
        });
        Ok(())
    }

    /// Lays the word in hand and ends the row.
    pub fn hard_break<C: CharTable, B: Board>(
        &mut self,
        tables: &Tables<'_, C>,
        board: &mut B,
    ) -> Result<(), LineFault>
        ensures { left result (state_of self.new (B.Board.rows board.new) (B.Board.fits board.new)) ≡ hard_break (C.CharTable.columns tables.now.chars.now) (addresses_in tables.now.addresses.now) (state_of self.old (B.Board.rows board.old) (B.Board.fits board.old)) }
    {
        self.flush_word(tables, board)?;
        self.end_line(board)
    }

    /// Adds a piece to the word in hand, or changes nothing.
    pub fn add_segment<C: CharTable>(&mut self, table: &C, text: &str) -> Result<(), LineFault>
        ensures answer { leaving result (writer_of self.new) ≡ add_segment (C.CharTable.columns table.now) text.now (writer_of self.old) }
        ensures kept { OnErr result (writer_of self.new ≡ writer_of self.old) }
    {
        if text.is_empty() {
            return Ok(());
        }
        self.word.push(table, text, &self.desired_attrs)
    }

    /// Gives a marker that no row has taken a row of its own.
    pub fn marker_row<C: CharTable, B: Board>(
        &mut self,
        table: &C,
        board: &mut B,
    ) -> Result<(), LineFault>
        ensures { left result (state_of self.new (B.Board.rows board.new) (B.Board.fits board.new)) ≡ marker_row (C.CharTable.columns table.now) (state_of self.old (B.Board.rows board.old) (B.Board.fits board.old)) }
    {
        match self.prefix.next_override {
            Some(_) => {
                self.open_line(table, board)?;
                self.end_line(board)
            }
            None => Ok(()),
        }
    }
}
