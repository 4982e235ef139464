//! The highlighter `Toml`: blocks named toml, with their comments, strings and digits.
ghost use Rattle.std.specs.Prelude.{◌≡◌, ◌+◌, ◌≤◌, ◌++◌, length};
ghost use Rattle.highlight.specs.Toml.{toml_first, toml_tokens, toml_next};
ghost use Rattle.highlight.specs.Scans.{tokens_cover};

use crate::highlighter::Highlighter;
use crate::piece::{Mode, first_piece};
use crate::room::{LongLine, Tokens, begin_line};

/// Colours TOML. Between two lines it knows whether a string over lines is open.
#[derive(Clone, Copy)]
pub struct Toml;

// Cuts a line into tokens, one after the other, and answers the mode behind it.
fn scan(mut mode: Mode, line: &str, tokens: &mut Tokens) -> Mode
    requires { length tokens.old + length line.now ≤ 4096 }
    ensures falls { tokens.new ≡ tokens.old ++ toml_tokens mode line.now }
    ensures next { result ≡ toml_next mode line.now }
{
    let mut rest = line;
    while let Some(first) = rest.chars().next() {
        let piece = first_piece(mode, first, rest);
        let _ = tokens.push(piece.token);
        let length = piece.token.length;
        rest = &rest[length..];
        mode = piece.next;
    }
    mode
}

impl Highlighter for Toml {
    type State = Mode;

    ghost first = { λ _ n. toml_first n };

    ghost falls = { λ _ s l. toml_tokens s l };

    ghost next = { λ _ s l. toml_next s l };

    ghost whole = { λ h mode line text. tokens_cover mode 0 line text };

    fn begin(&self, name: &str) -> Option<Mode> {
        match name {
            "toml" => Some(Mode::Outside),
            _ => None,
        }
    }

    fn highlight(&self, state: &mut Mode, line: &str, tokens: &mut Tokens) -> Result<(), LongLine> {
        begin_line(line, tokens)?;
        *state = scan(*state, line, tokens);
        Ok(())
    }
}
