//! Why a script is refused.
ghost use Rattle.std.specs.Prelude.{◌≡◌};
ghost use Rattle.script.specs.declared.fault.ScriptError.TheVariants.{Memory};

use std::alloc::{AllocError, AllocFailed};
use std::fmt;
use std::str::from_utf8;

/// What a line should have had.
#[derive(Clone, Copy)]
pub enum Expected {
    Call,
    Room,
    Strings,
}

impl fmt::Display for Expected {
    fn fmt<W: fmt::Write>(&self, f: &mut fmt::Formatter<W>) -> fmt::Result {
        match self {
            Expected::Call => f.write_str("base STRING, directory STRING or resolve ROOM STRING"),
            Expected::Room => f.write_str("a number from 0 to 4294967295"),
            Expected::Strings => f.write_str(
                "strings, as \"..\" or \"..\"*N, where *N makes at most 16777216 bytes",
            ),
        }
    }
}

/// A line that is no call or setting: its number, what was read and what was expected in its place.
#[derive(Drop)]
pub struct Refusal {
    pub number: usize,
    pub read: Vec<u8>,
    pub expected: Expected,
}

/// Why a script is refused.
#[derive(Drop)]
pub enum ScriptError {
    Memory,
    Line(Refusal),
}

impl From<AllocError> for ScriptError {
    ghost from_gives = { λ _ r. r ≡ Memory };

    fn from(_e: AllocError) -> ScriptError {
        ScriptError::Memory
    }
}

// The library has two errors for want of memory, and one impl for both would overlap others.
impl<T: Drop> From<AllocFailed<T>> for ScriptError {
    ghost from_gives = { λ _ r. r ≡ Memory };

    fn from(_e: AllocFailed<T>) -> ScriptError {
        ScriptError::Memory
    }
}

/// What was read: as text in quotes, or byte by byte where it is none.
fn show<W: fmt::Write>(read: &[u8], f: &mut fmt::Formatter<W>) -> fmt::Result {
    if read.is_empty() {
        return f.write_str("nothing");
    }
    match from_utf8(read) {
        Ok(text) => write!(f, "{text:?}"),
        Err(_) => {
            f.write_str("the bytes")?;
            for b in read {
                write!(f, " {b:02X}")?;
            }
            Ok(())
        }
    }
}

impl fmt::Display for ScriptError {
    fn fmt<W: fmt::Write>(&self, f: &mut fmt::Formatter<W>) -> fmt::Result {
        match self {
            ScriptError::Memory => f.write_str("there is not enough memory"),
            ScriptError::Line(refusal) => {
                let number = refusal.number;
                let expected = refusal.expected;
                write!(f, "line {number}: read ")?;
                show(&refusal.read, f)?;
                write!(f, ", expected {expected}")
            }
        }
    }
}
