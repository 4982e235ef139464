//! The line writer's parts.
use crate::format::Format;
use crate::prefix::LinePrefix;
use crate::segment::Segment;
use crate::word::Word;
use paint::{ClosedRow, OpenLine, RunAttrs};
use stack::Stack;

/// A space that a row may end at. It remembers its looks, so that a space between two words of a link stays inside it.
#[derive(Clone, Copy)]
pub struct PendingSpace {
    pub(crate) desired: RunAttrs,
}

/// Where the writer is.
#[derive(Clone, Copy)]
pub enum LineState {
    /// The row is open: its margin is written, and text may follow.
    Open,
    /// No row is open.
    AtStart,
    /// No row is open, and a blank row of that margin comes before the next.
    AfterBlock(Stack<Segment>),
}

/// A line emitter: it lays words and lines of code on rows, and is unaware of Markdown.
#[derive(Drop)]
pub struct LineWriter {
    pub(crate) format: Format,
    pub(crate) prefix: LinePrefix,
    pub(crate) line: LineState,
    /// What is painted of the open row; empty where none is open.
    pub(crate) row: OpenLine,
    /// Where a row is finished before it goes on the board.
    pub(crate) closed: ClosedRow,
    pub(crate) word: Word,
    pub(crate) pending_space: Option<PendingSpace>,
    pub(crate) desired_attrs: RunAttrs,
    /// How many rows were put.
    pub(crate) rows: usize,
}
