//! What an event may change.
ghost use Rattle.std.specs.Prelude.{◌≤◌, string_len, string_capacity};

use crate::block::BlockContext;
use events::{Elements, ListStack};
use line::LineWriter;

/// The most bytes of a line of code.
pub(crate) const CODE_LINE: usize = 4096;

/// A renderer that turns events into the line writer's operations.
#[derive(Drop)]
pub struct Renderer<S> {
    pub(crate) writer: LineWriter,
    /// The open elements.
    pub(crate) elements: Elements,
    /// The open lists.
    pub(crate) list_stack: ListStack,
    pub(crate) block: BlockContext<S>,
    /// The line of code that no newline has ended yet: text, whose room is taken once.
    pub(crate) held: String,
    ghost room: { 4096 ≤ string_capacity held },
    ghost few: { string_len held ≤ 4096 },
}
