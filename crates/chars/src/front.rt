//! Bytes that are read as text from the front.
ghost use Rattle.std.specs.Prelude.{◌≡◌, ◌++◌, length, drop, MatchOption};
ghost use Rattle.std.specs.Str.{StartsWithNoChar};
ghost use Rattle.chars.specs.Begins.{char_at, Begins};

use std::str::{from_utf8, from_utf8_unchecked};

// The longest front of the bytes that is text: no character begins behind it.
pub(crate) fn front_text(bytes: &[u8]) -> &str
    ensures front { bytes.now ≡ result.now ++ drop (length result.now) bytes.now }
    ensures longest { StartsWithNoChar (drop (length result.now) bytes.now) }
{
    match from_utf8(bytes) {
        Ok(text) => text,
        Err(fault) => {
            let end = fault.valid_up_to();
            unsafe { from_utf8_unchecked(&bytes[0..end]) }
        }
    }
}

/// The character that the bytes begin with, if they begin with a well-formed one.
pub fn first_char(bytes: &[u8]) -> Option<char>
    ensures value { result ≡ char_at bytes.now }
    ensures begins { MatchOption result (StartsWithNoChar bytes.now) (λ c. Begins c bytes.now) }
{
    // No character has more than four bytes.
    let end = bytes.len().min(4);
    let text = front_text(&bytes[0..end]);
    text.chars().next()
}
