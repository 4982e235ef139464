//! The line writer: words go onto rows, and rows onto a board. It knows nothing of Markdown.
#![tactic(auto)]

mod code;
mod emitting;
mod fault;
mod flow;
mod format;
mod lines;
mod marker;
mod prefix;
mod segment;
mod settings;
mod tables;
mod word;
mod words;
mod writer;

pub use emitting::AsSpan;
pub use fault::LineFault;
pub use format::Format;
pub use marker::Marker;
pub use prefix::{LinePrefix, Override};
pub use segment::Segment;
pub use tables::Tables;
pub use word::{Span, Word};
pub use writer::{LineState, LineWriter, PendingSpace};
