//! The highlighter `Plain`: every block is taken, and nothing in it is coloured.
ghost use Rattle.std.specs.Prelude.{List, Some};
ghost use Rattle.highlight.specs.Plain.{plain_tokens};
ghost use Rattle.highlight.specs.Covering.{plain_covers};

use crate::highlighter::Highlighter;
use crate::room::{LongLine, Tokens, begin_line};
use crate::token::{Kind, Token};

/// A line is one token, in the style that is in force.
#[derive(Clone, Copy)]
pub struct Plain;

impl Highlighter for Plain {
    type State = ();

    ghost first = { λ _ _. Some tt };

    ghost falls = { λ _ _ l. plain_tokens l };

    ghost next = { λ _ s _. s };

    ghost whole = { λ h s line text. plain_covers line text };

    fn begin(&self, _name: &str) -> Option<()> {
        Some(())
    }

    fn highlight(&self, _state: &mut (), line: &str, tokens: &mut Tokens) -> Result<(), LongLine> {
        begin_line(line, tokens)?;
        if !line.is_empty() {
            let _ = tokens.push(Token {
                kind: Kind::InForce,
                length: line.len(),
            });
        }
        Ok(())
    }
}
