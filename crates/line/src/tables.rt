//! What rows are laid by.
use links::AddressTable;

/// The character table that rows are measured by, and the addresses that links lead to.
#[derive(Drop)]
pub struct Tables<'a, C> {
    pub chars: &'a C,
    pub addresses: &'a AddressTable,
}
