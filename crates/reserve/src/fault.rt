//! What a list refuses.

/// The list has no room for more.
#[derive(Clone, Copy, PartialEq, Eq, Debug)]
pub struct Full;
