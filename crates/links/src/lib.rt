//! Links: a page's addresses, each kept once.
#![tactic(auto)]

mod interning;
mod span;
mod table;

pub use reserve::Full;
pub use table::AddressTable;
