//! Control characters, and which of them may stand in a text.
ghost use Rattle.std.specs.Prelude.{◌≡◌};
ghost use Rattle.chars.specs.Controls.{control, allowed, breaks_in};

/// Whether tab and newline may stand in a text: the rules know these two cases, and no other set of characters.
#[derive(Clone, Copy)]
pub enum Breaks {
    Refused,
    Allowed,
}

/// Whether the character steers a device in place of being shown.
pub fn is_control(c: char) -> bool
    ensures { result ≡ control c }
{
    c.is_control()
}

// Whether the character may stand in a text.
pub(crate) fn is_allowed(c: char, breaks: Breaks) -> bool
    ensures { result ≡ allowed (breaks_in breaks) c }
{
    match breaks {
        Breaks::Allowed if c == '\t' || c == '\n' => true,
        _ => !is_control(c),
    }
}
