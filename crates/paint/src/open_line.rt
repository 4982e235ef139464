//! A row that is being painted.
use crate::attrs::RunAttrs;
use crate::row::RowBuffer;

/// The row in hand: its bytes, how many of them are margin, the columns used so far, and what is in force at its end.
#[derive(Drop)]
pub struct OpenLine {
    pub(crate) row: RowBuffer,
    pub(crate) margin: usize,
    pub(crate) column: usize,
    pub(crate) emitted: RunAttrs,
}
