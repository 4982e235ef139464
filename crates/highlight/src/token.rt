//! Tokens: a line's pieces, each of one kind.
ghost use Rattle.std.specs.Prelude.{◌≡◌};
ghost use Rattle.highlight.specs.Names.{style_named};

/// What a token is, and so how it is coloured.
#[derive(Clone, Copy, PartialEq, Eq, Debug)]
pub enum Kind {
    Comment,
    Table,
    String,
    Digit,
    Keyword,
    Boolean,
    /// It has no colour.
    Bare,
    /// It keeps the style that is in force.
    InForce,
}

/// One token: so many bytes of its line, behind those of the tokens before it.
#[derive(Clone, Copy, PartialEq, Eq, Debug)]
pub struct Token {
    pub kind: Kind,
    pub length: usize,
}

/// The kind that a style of TOML is for, by its name; none where no kind has that name. The name is the Rust's.
pub fn toml_style(kind: &str) -> Option<Kind>
    ensures { result ≡ style_named kind.now }
{
    match kind {
        "comment" => Some(Kind::Comment),
        "table" => Some(Kind::Table),
        "string" => Some(Kind::String),
        "digit" => Some(Kind::Digit),
        "keyword" => Some(Kind::Keyword),
        "boolean" => Some(Kind::Boolean),
        _ => None,
    }
}
