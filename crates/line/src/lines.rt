//! Opening and ending rows.
ghost use Rattle.std.specs.Prelude.{◌≡◌, ℕ, Bool, List};
ghost use Rattle.board.specs.Row.{Row as RowHeld};
ghost use Rattle.stack.specs.Held.{held};
ghost use Rattle.paint.specs.Rows.{leaving, blank, open_of};
ghost use Rattle.line.specs.Steps.{indent_one, indent_all, indent_marked, margin_by, begin_line, put_row, blank_row, pay_due, open_line, end_line, end_block};
ghost use Rattle.line.specs.Reads.{override_of, prefix_of, state_of, left};

use crate::fault::LineFault;
use crate::prefix::{LinePrefix, Override};
use crate::segment::Segment;
use crate::writer::{LineState, LineWriter};
use board::{Board, Row};
use chars::CharTable;
use paint::{OpenLine, RowFault};
use stack::Stack;

// Writes a part of a margin.
fn write_segment<C: CharTable>(
    table: &C,
    segment: Segment,
    row: &mut OpenLine,
) -> Result<(), RowFault>
    ensures { leaving result (open_of row.new) ≡ indent_one (C.CharTable.columns table.now) segment (open_of row.old) }
{
    row.indent(segment.text(), segment.width(table))
}

// Writes the parts of a margin, one behind the other.
fn write_segments<C: CharTable>(
    table: &C,
    segments: &[Segment],
    row: &mut OpenLine,
) -> Result<(), RowFault>
    ensures { leaving result (open_of row.new) ≡ indent_all (C.CharTable.columns table.now) segments.now (open_of row.old) }
{
    for segment in segments {
        write_segment(table, *segment, row)?;
    }
    Ok(())
}

// Writes a margin that ends in a marker.
fn write_override<C: CharTable>(
    table: &C,
    next: &Override,
    row: &mut OpenLine,
) -> Result<(), RowFault>
    ensures { leaving result (open_of row.new) ≡ indent_marked (C.CharTable.columns table.now) (override_of next.now) (open_of row.old) }
{
    write_segments(table, next.segments.as_slice(), row)?;
    let text = next.marker.text();
    row.indent(text.as_bytes(), next.marker.width(table) as usize)
}

// Writes the margin that is its turn: what is set for the next row, else all the parts.
fn write_margin<C: CharTable>(
    table: &C,
    prefix: &LinePrefix,
    row: &mut OpenLine,
) -> Result<(), RowFault>
    ensures { leaving result (open_of row.new) ≡ margin_by (C.CharTable.columns table.now) (prefix_of prefix.now).segments (prefix_of prefix.now).next }
{
    row.clear();
    match &prefix.next_override {
        Some(next) => write_override(table, next, row),
        None => write_segments(table, prefix.segments.as_slice(), row),
    }
}

impl LineWriter {
    // Begins a row with its margin.
    fn begin_line<C: CharTable>(&mut self, table: &C) -> Result<(), LineFault>
        ensures { (rows : List RowHeld) (fits : List RowHeld → ℕ → Bool) → left result (state_of self.new rows fits) ≡ begin_line (C.CharTable.columns table.now) (state_of self.old rows fits) }
    {
        write_margin(table, &self.prefix, &mut self.row)?;
        let _ = self.prefix.take_next();
        self.line = LineState::Open;
        Ok(())
    }

    // Puts the row in hand on the board.
    fn put_row<B: Board>(&mut self, board: &mut B) -> Result<(), LineFault>
        ensures { left result (state_of self.new (B.Board.rows board.new) (B.Board.fits board.new)) ≡ put_row (open_of self.old.row) (state_of self.old (B.Board.rows board.old) (B.Board.fits board.old)) }
    {
        let margin = self.row.finish(&mut self.closed);
        board.put(Row::new(margin, self.closed.as_slice()))?;
        self.row.clear();
        self.rows = self.rows.saturating_add(1);
        Ok(())
    }

    // Puts a row that is its margin alone.
    fn put_blank<C: CharTable, B: Board>(
        &mut self,
        table: &C,
        board: &mut B,
        margin: &Stack<Segment>,
    ) -> Result<(), LineFault>
        ensures { left result (state_of self.new (B.Board.rows board.new) (B.Board.fits board.new)) ≡ blank_row (state_of self.old (B.Board.rows board.old) (B.Board.fits board.old)) (indent_all (C.CharTable.columns table.now) (held margin.now) blank) }
    {
        self.row.clear();
        write_segments(table, margin.as_slice(), &mut self.row)?;
        self.put_row(board)
    }

    // Puts the blank row that is due, unless no row was put yet.
    fn pay_due<C: CharTable, B: Board>(
        &mut self,
        table: &C,
        board: &mut B,
        due: &Stack<Segment>,
    ) -> Result<(), LineFault>
        ensures { left result (state_of self.new (B.Board.rows board.new) (B.Board.fits board.new)) ≡ pay_due (C.CharTable.columns table.now) (held due.now) (state_of self.old (B.Board.rows board.old) (B.Board.fits board.old)) }
    {
        if self.rows == 0 {
            return Ok(());
        }
        self.put_blank(table, board, due)
    }

    /// Opens a row, behind the blank row that is due. The board is lent to each call anew, since it alone changes.
    pub fn open_line<C: CharTable, B: Board>(
        &mut self,
        table: &C,
        board: &mut B,
    ) -> Result<(), LineFault>
        ensures { left result (state_of self.new (B.Board.rows board.new) (B.Board.fits board.new)) ≡ open_line (C.CharTable.columns table.now) (state_of self.old (B.Board.rows board.old) (B.Board.fits board.old)) }
    {
        match self.line {
            LineState::Open => Ok(()),
            LineState::AtStart => self.begin_line(table),
            LineState::AfterBlock(due) => {
                self.pay_due(table, board, &due)?;
                self.begin_line(table)
            }
        }
    }

    /// Puts the open row.
    pub fn end_line<B: Board>(&mut self, board: &mut B) -> Result<(), LineFault>
        ensures { left result (state_of self.new (B.Board.rows board.new) (B.Board.fits board.new)) ≡ end_line (state_of self.old (B.Board.rows board.old) (B.Board.fits board.old)) }
    {
        match self.line {
            LineState::Open => {
                self.put_row(board)?;
                self.line = LineState::AtStart;
                Ok(())
            }
            _ => Ok(()),
        }
    }

    /// Puts the open row, and lets a blank one come before the next.
    pub fn end_block<B: Board>(&mut self, board: &mut B) -> Result<(), LineFault>
        ensures { left result (state_of self.new (B.Board.rows board.new) (B.Board.fits board.new)) ≡ end_block (state_of self.old (B.Board.rows board.old) (B.Board.fits board.old)) }
    {
        self.end_line(board)?;
        self.line = LineState::AfterBlock(self.prefix.segments);
        Ok(())
    }
}
