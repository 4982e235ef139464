//! What a page is given, and stays the same.
use links::AddressTable;

/// The character table, the highlighter, and the page's addresses so far.
pub struct Desk<C, H> {
    pub(crate) table: C,
    pub(crate) highlighter: H,
    pub(crate) addresses: AddressTable,
}
