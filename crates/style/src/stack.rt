//! The styles in force, the first put on first.
ghost use Rattle.std.specs.Prelude.{◌≡◌, [], ◌∷◌, ◌++◌, length, if◌then◌else◌, is_ok, nat_lt};

use crate::palette::Style;
use reserve::{Full, Reserved};

/// How many styles may be in force at once.
const DEEPEST: usize = 64;

/// Styles, with room for 64 taken once.
pub type StyleStack = Reserved<Style, DEEPEST>;

/// Puts a style on, unless 64 are in force, and else changes nothing.
pub fn put_on(styles: &mut StyleStack, style: Style) -> Result<(), Full>
    ensures answer { is_ok result ≡ nat_lt (length styles.old) 64 }
    ensures after { styles.new ≡ (if is_ok result then styles.old ++ style ∷ [] else styles.old) }
{
    styles.push(style)
}
