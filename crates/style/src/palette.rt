//! The palette and its switches.
ghost use Rattle.std.specs.Prelude.{◌≡◌};
ghost use Rattle.style.specs.Switches.{switch_of, reset_bytes};

/// An appearance.
#[derive(Clone, Copy, PartialEq, Eq, Debug)]
pub enum Style {
    Heading,
    Emphasis,
    Strong,
    Strikethrough,
    Code,
    Term,
    Link,
    Comment,
    Table,
    Text,
    Number,
}

/// The sequence that turns a style on.
pub fn switch(style: Style) -> &'static [u8]
    ensures { result.now ≡ switch_of style }
{
    match style {
        Style::Heading => b"\x1b[1;4m",
        Style::Emphasis => b"\x1b[3m",
        Style::Strong => b"\x1b[1m",
        Style::Strikethrough => b"\x1b[9m",
        Style::Code => b"\x1b[36m",
        Style::Term => b"\x1b[32;1m",
        Style::Link => b"\x1b[34;4m",
        Style::Comment => b"\x1b[2m",
        Style::Table => b"\x1b[35;1m",
        Style::Text => b"\x1b[32m",
        Style::Number => b"\x1b[33m",
    }
}

/// The sequence that turns every style off.
#[tactic(auto, using(crate::proofs::Switching::reset_is))]
pub fn reset() -> &'static [u8]
    ensures { result.now ≡ reset_bytes }
{
    b"\x1b[0m"
}
