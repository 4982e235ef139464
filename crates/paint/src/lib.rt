//! Painting a row: its margin, and then each text with the switches and links that change before it.
#![tactic(auto)]

mod attrs;
mod closed_row;
mod closing;
mod fault;
mod link;
mod open_line;
mod row;
mod styles;
mod sync;
mod trim;
mod writing;

pub use attrs::RunAttrs;
pub use closed_row::ClosedRow;
pub use fault::RowFault;
pub use link::LinkTarget;
pub use open_line::OpenLine;
pub use row::RowBuffer;
pub use styles::{StyleList, no_style};
pub use sync::{sync_link, write_style_diff};
pub use trim::trimmed;
