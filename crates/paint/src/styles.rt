//! The styles in force.
ghost use Rattle.std.specs.Prelude.{◌≡◌, []};
ghost use Rattle.stack.specs.Held.{held};

use stack::Stack;
use style::Style;

/// The styles in force, the first put on first.
pub type StyleList = Stack<Style>;

/// No style in force.
pub fn no_style() -> StyleList
    ensures { held result ≡ [] }
{
    Stack::new(Style::Heading)
}
