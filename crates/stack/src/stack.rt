//! What is open, the first opened first.
ghost use Rattle.std.specs.Prelude.{◌≡◌, ◌≤◌, length, ⊤};

use std::alloc::AllocError;

/// How many things may be open at once: one for each open element, of which there are at most 32, and one of a code span.
pub(crate) const DEEPEST: usize = 33;

/// Values in a place of a fixed size, so that a stack is a value that is copied, and a copy takes no memory.
pub struct Stack<T> {
    pub(crate) items: [T; DEEPEST],
    pub(crate) depth: usize,
    ghost places: { length items ≡ 33 },
    ghost few: { depth ≤ 33 },
}

// A derive is refused for a struct with ghost fields and a type parameter.
impl<T: Copy> Clone for Stack<T> {
    ghost is_clone = { λ x y. y ≡ x };

    ghost is_infallible = { λ _. ⊤ };

    fn clone(&self) -> Result<Stack<T>, AllocError> {
        Ok(*self)
    }
}

impl<T: Copy> Copy for Stack<T> {}
