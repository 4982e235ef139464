//! Boards: where rows go. A board keeps rows in order, takes one more where it fits, and can be cut back.
#![tactic(auto)]

mod area;
mod board;
mod entry;
mod grid;
mod grid_board;
mod history;
mod row;
mod rows;
mod sheet;
mod sheet_board;

pub use area::{byte_at, bytes_len};
pub use board::{Board, BoardFault};
pub use grid::Grid;
pub use history::{Change, apply};
pub use row::Row;
pub use sheet::Sheet;
