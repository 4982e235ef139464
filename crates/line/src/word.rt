//! A single word to be laid.
ghost use Rattle.std.specs.Prelude.{◌≤◌, length};

use paint::RunAttrs;
use reserve::Reserved;

/// The most bytes, and the most pieces, of a word.
const WORD_BYTES: usize = 1024;

const WORD_PIECES: usize = 64;

/// A styled run of text: so many bytes of its word, behind those of the spans before it, and their columns.
#[derive(Clone, Copy)]
pub struct Span {
    pub(crate) length: usize,
    pub(crate) width: usize,
    pub(crate) desired: RunAttrs,
}

/// The spans that make up a word, and its text, with their room taken once; so a span has a length and no text of its own.
#[derive(Drop)]
pub struct Word {
    pub(crate) text: Reserved<u8, WORD_BYTES>,
    pub(crate) spans: Reserved<Span, WORD_PIECES>,
    /// The width of the word, in columns.
    pub(crate) width: usize,
    ghost short: { length text ≤ 1024 },
    ghost few: { length spans ≤ 64 },
}
