//! Putting values on and taking them off.
ghost use Rattle.std.specs.Prelude.{◌≡◌, [], ◌∷◌, ◌++◌, length, is_ok, is_some, ◌==◌, nat_lt};
ghost use Rattle.std.specs.Option.{option_to_list};
ghost use Rattle.stack.specs.Held.{held, pushed, popped};

use crate::stack::{DEEPEST, Stack};
use reserve::Full;

impl<T: Copy> Stack<T> {
    /// Nothing; the filler is what stands in the unused places.
    pub fn new(filler: T) -> Stack<T>
        ensures { held result ≡ [] }
    {
        Stack {
            items: [filler; DEEPEST],
            depth: 0,
        }
    }

    /// One value alone.
    pub fn only(item: T) -> Stack<T>
        ensures { held result ≡ item ∷ [] }
    {
        Stack {
            items: [item; DEEPEST],
            depth: 1,
        }
    }

    /// Puts a value on if there are fewer than 33, and else changes nothing.
    pub fn push(&mut self, item: T) -> Result<(), Full>
        ensures answer { is_ok result ≡ nat_lt (length (held self.old)) 33 }
        ensures after { held self.new ≡ pushed (held self.old) item }
    {
        let depth = self.depth;
        if depth >= DEEPEST {
            return Err(Full);
        }
        self.items[depth] = item;
        self.depth = depth + 1;
        Ok(())
    }

    /// Takes the last value off, if there is one.
    pub fn pop(&mut self) -> Option<T>
        ensures answer { is_some result ≡ nat_lt 0 (length (held self.old)) }
        ensures last { held self.old ≡ held self.new ++ option_to_list result }
        ensures after { held self.new ≡ popped (held self.old) }
    {
        self.depth = self.depth.checked_sub(1)?;
        Some(self.items[self.depth])
    }

    /// Whether there is none.
    pub fn is_empty(&self) -> bool
        ensures { result ≡ (length (held self.now) == 0) }
    {
        self.depth == 0
    }

    /// The values, in order.
    pub fn as_slice(&self) -> &[T]
        ensures { result.now ≡ held self.now }
    {
        let items = &self.items[..];
        &items[0..self.depth]
    }
}
