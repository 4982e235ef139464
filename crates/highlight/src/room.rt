//! Room for the tokens of a line, reserved once.
ghost use Rattle.std.specs.Prelude.{◌≡◌, [], length, is_ok, if◌then◌else◌, nat_le};

use crate::token::Token;
use reserve::Reserved;

/// The most bytes of a line that is highlighted, and so the most tokens that one has.
pub(crate) const LONGEST: usize = 4096;

/// The tokens of one line.
pub type Tokens = Reserved<Token, LONGEST>;

/// A line has more than 4,096 bytes.
#[derive(Clone, Copy, PartialEq, Eq, Debug)]
pub struct LongLine;

/// Takes every token away, to make room for those of this line. A longer line is refused, and changes nothing.
pub(crate) fn begin_line(line: &str, tokens: &mut Tokens) -> Result<(), LongLine>
    ensures fits { is_ok result ≡ nat_le (length line.now) 4096 }
    ensures after { tokens.new ≡ (if is_ok result then [] else tokens.old) }
{
    if line.len() > LONGEST {
        return Err(LongLine);
    }
    tokens.clear();
    Ok(())
}
