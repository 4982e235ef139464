//! The bytes of a finished row.
use reserve::Reserved;

/// The most bytes of a row with what closes it: 7 for the end of a link and 4 for a reset.
const CLOSED_MOST: usize = 8203;

/// A finished row, with its room taken once.
pub type ClosedRow = Reserved<u8, CLOSED_MOST>;
