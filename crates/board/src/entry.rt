//! A line of a sheet's table.

/// Where a row's bytes start, how many they are, and how many of them are margin.
#[derive(Clone, Copy)]
pub struct Entry {
    pub margin: usize,
    pub start: usize,
    pub length: usize,
}
