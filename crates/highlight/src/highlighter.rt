//! Highlighters: each maps a state of its own and a line to tokens and a next state.
ghost use Rattle.std.specs.Prelude.{◌≡◌, ℕ, List, length, is_ok, if◌then◌else◌, IsUtf8, Option as Maybe, nat_le};
ghost use Rattle.highlight.specs.declared.token.Token.{Token as Marked};
ghost use Rattle.highlight.specs.Lines.{Covers};

use crate::room::{LongLine, Tokens};

/// What colours the lines of code blocks.
pub trait Highlighter {
    /// What it knows of a block between two of its lines.
    type State: Drop;

    /// The state before a block's first line, by the block's name; none where it does not take such a block.
    ghost first: { Self → List ℕ → Maybe Self.State };

    /// The tokens that a line falls into.
    ghost falls: { Self → Self.State → List ℕ → List Marked };

    /// The state behind a line.
    ghost next: { Self → Self.State → List ℕ → Self.State };

    /// Begins a block of that name, or declines it.
    fn begin(&self, name: &str) -> Option<Self::State>
        ensures { result ≡ first self.now name.now };

    /// Takes the block's next line: the tokens are then its tokens alone. A line above 4,096 bytes is refused, and changes nothing.
    fn highlight(
        &self,
        state: &mut Self::State,
        line: &str,
        tokens: &mut Tokens,
    ) -> Result<(), LongLine>
        ensures fits { is_ok result ≡ nat_le (length line.now) 4096 }
        ensures falls { tokens.new ≡ (if is_ok result then falls self.now state.old line.now else tokens.old) }
        ensures next { state.new ≡ (if is_ok result then next self.now state.old line.now else state.old) };

    /// The tokens are whole characters, one or more each, and joined in order they are the line.
    ghost whole: { (h : Self) (s : Self.State) (l : List ℕ) → IsUtf8 l → Covers (falls h s l) l };
}
