//! Writing words on the open row.
ghost use Rattle.std.specs.Prelude.{◌≡◌, map, take, drop};
ghost use Rattle.links.specs.Tables.{addresses as addresses_in};
ghost use Rattle.paint.specs.Looks.{Looks, looks_of};
ghost use Rattle.paint.specs.Rows.{leaving, open_of};
ghost use Rattle.line.specs.Folding.{making};
ghost use Rattle.line.specs.Emits.{address_of, write_run, mk_brush, emit_piece, emit_pieces};
ghost use Rattle.line.specs.Reads.{piece_of, word_of};
ghost use Rattle.line.specs.Writer.{Piece};

use crate::format::Format;
use crate::word::{Span, Word};
use links::AddressTable;
use paint::{LinkTarget, OpenLine, RowFault, RunAttrs};

/// What can be written as a span of its text, where some looks are in force.
pub trait AsSpan: Copy {
    ghost piece: { Looks → Self → Piece };

    /// The span.
    fn as_span(self, desired: &RunAttrs) -> Span
        ensures { piece_of result ≡ piece (looks_of desired.now) self };
}

impl AsSpan for Span {
    ghost piece = { λ _ s. piece_of s };

    fn as_span(self, _desired: &RunAttrs) -> Span {
        self
    }
}

// The address that a link leads to.
fn address_of<'a>(addresses: &'a AddressTable, link: LinkTarget) -> &'a [u8]
    ensures { result.now ≡ address_of (addresses_in addresses.now) link }
{
    match link {
        LinkTarget::Linked(place) => addresses.get(place),
        LinkTarget::Unlinked => &[],
    }
}

/// The first bytes of a text, so many or all, and the rest.
pub(crate) fn split_front(text: &[u8], length: usize) -> (&[u8], &[u8])
    ensures front { result.0.now ≡ take length text.now }
    ensures rest { result.1.now ≡ drop length text.now }
{
    text.split_at(length.min(text.len()))
}

/// What writes texts on a row: how the page is to look, and where its links lead.
#[derive(Drop)]
pub(crate) struct Pen<'a> {
    pub(crate) format: Format,
    pub(crate) addresses: &'a AddressTable,
}

impl Pen<'_> {
    /// Writes a text on the row, in its looks as far as the page has colours and links.
    pub(crate) fn write_run(
        &self,
        text: &[u8],
        width: usize,
        desired: &RunAttrs,
        row: &mut OpenLine,
    ) -> Result<(), RowFault>
        ensures { leaving result (open_of row.new) ≡ write_run self.now.format (addresses_in self.now.addresses.now) text.now width (looks_of desired.now) (open_of row.old) }
    {
        let looks = desired.allowed(self.format.color, self.format.hyperlinks);
        row.write(text, width, &looks, address_of(self.addresses, looks.link))
    }

    // Writes a span, which is the front of the text, and answers the rest.
    fn write_span<'t, S: AsSpan>(
        &self,
        span: S,
        desired: &RunAttrs,
        text: &'t [u8],
        row: &mut OpenLine,
    ) -> Result<&'t [u8], RowFault>
        ensures { making result (λ rest. mk_brush (open_of row.new) rest.now) ≡ emit_piece self.now.format (addresses_in self.now.addresses.now) (S.AsSpan.piece (looks_of desired.now) span) (mk_brush (open_of row.old) text.now) }
    {
        let span = span.as_span(desired);
        let (piece, rest) = split_front(text, span.length);
        self.write_run(piece, span.width, &span.desired, row)?;
        Ok(rest)
    }

    /// Writes spans, whose bytes are the text in order.
    pub(crate) fn write_spans<S: AsSpan>(
        &self,
        spans: &[S],
        desired: &RunAttrs,
        text: &[u8],
        row: &mut OpenLine,
    ) -> Result<(), RowFault>
        ensures { leaving result (open_of row.new) ≡ emit_pieces self.now.format (addresses_in self.now.addresses.now) (map (S.AsSpan.piece (looks_of desired.now)) spans.now) text.now (open_of row.old) }
    {
        let mut rest = text;
        for span in spans {
            rest = self.write_span(*span, desired, rest, row)?;
        }
        Ok(())
    }

    /// Writes a word on the row.
    pub(crate) fn write_word(&self, word: &Word, row: &mut OpenLine) -> Result<(), RowFault>
        ensures { leaving result (open_of row.new) ≡ emit_pieces self.now.format (addresses_in self.now.addresses.now) (word_of word.now).pieces (word_of word.now).text (open_of row.old) }
    {
        let spans = word.spans.as_slice();
        self.write_spans(spans, &RunAttrs::new(), word.text.as_slice(), row)
    }
}
