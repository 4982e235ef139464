//! The check of a text that comes in.
ghost use Rattle.std.specs.Prelude.{◌≡◌, ◌++◌, Some, None, MatchResult, codes};
ghost use Rattle.std.specs.Fmt.{decimal};
ghost use Rattle.chars.specs.Clean.{first_bad, Clean, FirstBad};
ghost use Rattle.chars.specs.Controls.{breaks_in};

use super::control::{Breaks, is_allowed};
use super::front::front_text;
use std::error::Error;
use std::fmt;

/// Why bytes are no text that may stand there: the place of the first bad character.
#[derive(Clone, Copy, PartialEq, Eq, Debug)]
pub struct BadText {
    pub place: usize,
}

impl fmt::Display for BadText {
    ghost output = { λ fault. Some (codes "bad character at byte " ++ decimal fault.place) };

    fn fmt<W: fmt::Write>(&self, f: &mut fmt::Formatter<W>) -> fmt::Result {
        write!(f, "bad character at byte {}", self.place)
    }
}

impl Error for BadText {}

/// The bytes as text, or the place of the first bad character: of the first byte that starts no well-formed
/// character, or starts a control character other than an allowed break.
pub fn check_text(part: &[u8], breaks: Breaks) -> Result<&str, BadText>
    ensures answer { MatchResult result (λ text. (first_bad (breaks_in breaks) part.now ≡ None) × (text.now ≡ part.now)) (λ fault. first_bad (breaks_in breaks) part.now ≡ Some fault.place) }
    ensures first { MatchResult result (λ _. Clean (breaks_in breaks) part.now) (λ fault. FirstBad (breaks_in breaks) part.now fault.place) }
{
    let text = front_text(part);
    match text.find(|c| !is_allowed(c, breaks)) {
        Some(place) => Err(BadText { place }),
        None if text.len() < part.len() => Err(BadText { place: text.len() }),
        None => Ok(text),
    }
}
