//! The first token of a text in TOML, by the first rule that fits.
ghost use Rattle.std.specs.Prelude.{◌≡◌, ◌+◌, ◌^◌, ◌<◌, ◌≤◌, length, IfSome};
ghost use Rattle.highlight.specs.Marks.{through as found_through};
ghost use Rattle.highlight.specs.Toml.{piece, long_string, short_string, alone, outside, first_char, piece_in};

use crate::token::{Kind, Token};

/// Where a line begins, or a place in it lies.
#[derive(Clone, Copy, PartialEq, Eq, Debug)]
pub enum Mode {
    /// Outside of every string over lines.
    Outside,
    /// Inside a string over lines.
    Inside,
}

/// A token, and the mode behind it.
#[derive(Clone, Copy)]
pub(crate) struct Piece {
    pub(crate) token: Token,
    pub(crate) next: Mode,
}

const QUOTE: &str = "\"";

// What opens and closes a string over lines.
const QUOTES: &str = "\"\"\"";

impl Piece {
    fn new(kind: Kind, length: usize, next: Mode) -> Piece
        ensures { result ≡ piece kind length next }
    {
        Piece {
            token: Token { kind, length },
            next,
        }
    }
}

// How many bytes the text has through the first place of the mark.
fn through(mark: &str, text: &str) -> Option<usize>
    requires { 0 < length mark.now }
    ensures value { result ≡ found_through mark.now text.now }
    ensures within { IfSome result (λ n. n ≤ length text.now) }
{
    Some(text.find(mark)? + mark.len())
}

// A string over lines, behind the bytes that opened it.
fn long_string(opened: usize, inner: &str) -> Piece
    requires { opened + length inner.now < 2 ^ 64 }
    ensures { result ≡ long_string opened inner.now }
{
    match through(QUOTES, inner) {
        Some(n) => Piece::new(Kind::String, opened + n, Mode::Outside),
        None => Piece::new(Kind::String, opened + inner.len(), Mode::Inside),
    }
}

// A string on its line, behind the quote that opened it.
fn short_string(inner: &str) -> Piece
    requires { 1 + length inner.now < 2 ^ 64 }
    ensures { result ≡ short_string inner.now }
{
    match through(QUOTE, inner) {
        Some(n) => Piece::new(Kind::String, 1 + n, Mode::Outside),
        None => Piece::new(Kind::String, 1 + inner.len(), Mode::Outside),
    }
}

// A character that no string or comment holds.
fn one_char(c: char) -> Piece
    ensures { result ≡ alone c }
{
    if c.is_ascii_digit() {
        return Piece::new(Kind::Digit, c.len_utf8(), Mode::Outside);
    }
    Piece::new(Kind::Bare, c.len_utf8(), Mode::Outside)
}

// The first rule that fits outside of strings.
fn first_rule(first: char, text: &str) -> Piece
    ensures { result ≡ outside first text.now }
{
    if first == '#' {
        return Piece::new(Kind::Comment, text.len(), Mode::Outside);
    }
    if let Some(inner) = text.strip_prefix(QUOTES) {
        return long_string(3, inner);
    }
    if let Some(inner) = text.strip_prefix(QUOTE) {
        return short_string(inner);
    }
    one_char(first)
}

/// The first token of a text that begins with that character.
pub(crate) fn first_piece(mode: Mode, first: char, text: &str) -> Piece
    requires { first ≡ first_char text.now }
    ensures { result ≡ piece_in mode text.now }
{
    match mode {
        Mode::Outside => first_rule(first, text),
        Mode::Inside => long_string(0, text),
    }
}
