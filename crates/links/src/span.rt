//! Where an address lies.

/// Where an address starts in the bytes, and how many bytes it has.
#[derive(Clone, Copy)]
pub(crate) struct Span {
    pub(crate) start: usize,
    pub(crate) length: usize,
}
