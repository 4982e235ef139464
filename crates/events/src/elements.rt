//! The open elements, the innermost last.
use crate::element::Element;
use reserve::Reserved;

/// How many elements may be open at once.
pub(crate) const DEEPEST: usize = 32;

/// Elements, with room for 32 taken once.
pub type Elements = Reserved<Element, DEEPEST>;
