//! What is kept of an open list.

/// An open list: its next item's number, or none in a list of bullets.
#[derive(Clone, Copy)]
pub struct ListFrame {
    pub ordinal: Option<u64>,
}
