//! Lines of code: a row each, in the looks of the line's tokens.
ghost use Rattle.std.specs.Prelude.{◌≡◌, ℕ, Bool, List};
ghost use Rattle.board.specs.Row.{Row as RowHeld};
ghost use Rattle.links.specs.Tables.{addresses as addresses_in};
ghost use Rattle.stack.specs.Held.{held};
ghost use Rattle.line.specs.Code.{token_styles, token_piece, write_tokens, code_text, code_line};
ghost use Rattle.line.specs.Reads.{state_of, left};

use crate::emitting::AsSpan;
use crate::fault::LineFault;
use crate::tables::Tables;
use crate::word::Span;
use crate::writer::LineWriter;
use board::Board;
use chars::CharTable;
use highlight::{Kind, Token};
use links::AddressTable;
use paint::{LinkTarget, RunAttrs, StyleList, no_style};
use stack::Stack;
use style::Style;

// The styles of a kind of token where others are in force.
fn token_styles(kind: Kind, in_force: StyleList) -> StyleList
    ensures { held result ≡ token_styles (held in_force) kind }
{
    match kind {
        Kind::Comment => Stack::only(Style::Comment),
        Kind::Table => Stack::only(Style::Table),
        Kind::String => Stack::only(Style::Text),
        Kind::Digit | Kind::Keyword | Kind::Boolean => Stack::only(Style::Number),
        Kind::Bare => no_style(),
        Kind::InForce => in_force,
    }
}

impl AsSpan for Token {
    ghost piece = { token_piece };

    fn as_span(self, desired: &RunAttrs) -> Span {
        Span {
            length: self.length,
            width: 0,
            desired: RunAttrs {
                styles: token_styles(self.kind, desired.styles),
                link: LinkTarget::Unlinked,
            },
        }
    }
}

impl LineWriter {
    // Writes the tokens of a line on the open row.
    fn write_code(
        &mut self,
        addresses: &AddressTable,
        line: &[u8],
        tokens: &[Token],
    ) -> Result<(), LineFault>
        ensures { (rows : List RowHeld) (fits : List RowHeld → ℕ → Bool) → left result (state_of self.new rows fits) ≡ write_tokens (addresses_in addresses.now) line.now tokens.now (state_of self.old rows fits) }
    {
        let desired = self.desired_attrs;
        let pen = self.pen(addresses);
        pen.write_spans(tokens, &desired, line, &mut self.row)?;
        Ok(())
    }

    // Writes the tokens of a line on the open row, and ends it.
    fn end_code<B: Board>(
        &mut self,
        addresses: &AddressTable,
        board: &mut B,
        line: &[u8],
        tokens: &[Token],
    ) -> Result<(), LineFault>
        ensures { left result (state_of self.new (B.Board.rows board.new) (B.Board.fits board.new)) ≡ code_text (addresses_in addresses.now) line.now tokens.now (state_of self.old (B.Board.rows board.old) (B.Board.fits board.old)) }
    {
        self.write_code(addresses, line, tokens)?;
        self.end_line(board)
    }

    /// Lays a line of code on a row of its own.
    pub fn verbatim_line<C: CharTable, B: Board>(
        &mut self,
        tables: &Tables<'_, C>,
        board: &mut B,
        line: &[u8],
        tokens: &[Token],
    ) -> Result<(), LineFault>
        ensures { left result (state_of self.new (B.Board.rows board.new) (B.Board.fits board.new)) ≡ code_line (C.CharTable.columns tables.now.chars.now) (addresses_in tables.now.addresses.now) line.now tokens.now (state_of self.old (B.Board.rows board.old) (B.Board.fits board.old)) }
    {
        self.open_line(tables.chars, board)?;
        self.end_code(tables.addresses, board, line, tokens)
    }
}
