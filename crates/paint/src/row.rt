//! The bytes of the row in hand.
use reserve::Reserved;

/// The most bytes of a row, before it is trimmed and closed.
const ROW_MOST: usize = 8192;

/// A row's bytes, with their room taken once.
pub type RowBuffer = Reserved<u8, ROW_MOST>;
