//! The start of an element.
ghost use Rattle.std.specs.Prelude.{◌≡◌};
ghost use Rattle.events.specs.Lists.{top_frame};
ghost use Rattle.line.specs.Markers.{marker_text};
ghost use Rattle.page.specs.Hands.{mk_hand};
ghost use Rattle.page.specs.Opening.{frame_of, block_in, entered, marker_of, counted_up, start_item, prepared, started};
ghost use Rattle.page.specs.Reads.{context_of, hand_of, work_of, left_of};

use crate::block::{BlockContext, CodeBlockState, InlineContext};
use crate::elements::{due_before, segment_of, style_of};
use crate::renderer::Renderer;
use board::Board;
use chars::CharTable;
use events::{Element, ListFrame, next_marker};
use line::{LineFault, Marker, Segment};

// The frame of a list: a numbered one has its first number.
fn frame_of(element: Element, number: u32) -> Option<ListFrame>
    ensures { result ≡ frame_of element number }
{
    match element {
        Element::BulletList => Some(ListFrame { ordinal: None }),
        Element::NumberedList => Some(ListFrame {
            ordinal: Some(number as u64),
        }),
        _ => None,
    }
}

// The block that the text in an element stands in.
fn block_in<S: Copy>(
    element: Element,
    state: CodeBlockState<S>,
    block: BlockContext<S>,
) -> BlockContext<S>
    ensures { result ≡ block_in element state block }
{
    match element {
        Element::CodeBlock => BlockContext::Code(state),
        Element::Title => BlockContext::Normal(InlineContext::Term),
        _ => block,
    }
}

fn marker_of(frame: Option<ListFrame>) -> Marker
    ensures { marker_text result ≡ marker_of frame }
{
    match frame {
        Some(
            ListFrame {
                ordinal: Some(number),
            },
        ) => Marker::Number(number),
        _ => Marker::Bullet,
    }
}

impl<S: Copy> Renderer<S> {
    /// Opens an element: its style, its part of the margin, its list, its block.
    pub(crate) fn enter(&mut self, element: Element, state: CodeBlockState<S>, number: u32)
        ensures { hand_of self.new ≡ entered element state number (hand_of self.old) }
    {
        if let Some(style) = style_of(element) {
            self.writer.push_style(style);
        }
        if let Some(segment) = segment_of(element) {
            self.writer.push_prefix(segment);
        }
        if let Some(frame) = frame_of(element, number) {
            let _ = self.list_stack.push(frame);
        }
        self.block = block_in(element, state, self.block);
        let _ = self.elements.push(element);
    }

    // The marker of the innermost list's next item, which is counted.
    fn next_marker(&mut self) -> Marker
        ensures marker { marker_text result ≡ marker_of (top_frame (context_of self.old).lists) }
        ensures after { hand_of self.new ≡ mk_hand (hand_of self.old).writer (counted_up (context_of self.old)) }
    {
        marker_of(next_marker(&mut self.list_stack))
    }

    // Starts an item: a marker that no row has taken gets one first.
    fn start_item<C: CharTable, B: Board>(
        &mut self,
        table: &C,
        board: &mut B,
    ) -> Result<(), LineFault>
        ensures { left_of result (work_of self.new (B.Board.rows board.new) (B.Board.fits board.new)) ≡ start_item (C.CharTable.columns table.now) (work_of self.old (B.Board.rows board.old) (B.Board.fits board.old)) }
    {
        self.writer.marker_row(table, board)?;
        let marker = self.next_marker();
        self.writer.set_item_marker(marker);
        self.writer
            .push_prefix(Segment::Indent(marker.width(table)));
        Ok(())
    }

    // What comes before an element is open.
    fn prepare<C: CharTable, B: Board>(
        &mut self,
        table: &C,
        board: &mut B,
        element: Element,
    ) -> Result<(), LineFault>
        ensures { left_of result (work_of self.new (B.Board.rows board.new) (B.Board.fits board.new)) ≡ prepared (C.CharTable.columns table.now) element (work_of self.old (B.Board.rows board.old) (B.Board.fits board.old)) }
    {
        if due_before(element) {
            return self.writer.end_block(board);
        }
        if element == Element::Item {
            return self.start_item(table, board);
        }
        Ok(())
    }

    /// Starts an element, behind the row end that it forces.
    pub(crate) fn start<C: CharTable, B: Board>(
        &mut self,
        table: &C,
        board: &mut B,
        element: Element,
        state: CodeBlockState<S>,
        number: u32,
    ) -> Result<(), LineFault>
        ensures { left_of result (work_of self.new (B.Board.rows board.new) (B.Board.fits board.new)) ≡ started (C.CharTable.columns table.now) element state number (work_of self.old (B.Board.rows board.old) (B.Board.fits board.old)) }
    {
        self.prepare(table, board, element)?;
        self.enter(element, state, number);
        Ok(())
    }
}
