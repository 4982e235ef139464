//! Making a list, filling it and taking from it.
ghost use Rattle.std.specs.Prelude.{◌≡◌, ◌+◌, ◌-◌, ◌≤◌, [], ◌∷◌, ◌++◌, length, take, is_ok, is_some, if◌then◌else◌, IfOk, IfSome, slice_index_or, ◌==◌, nat_le, nat_lt};
ghost use Rattle.std.specs.Option.{option_to_list};
ghost use Rattle.std.specs.Borrow.{sem};
ghost use Rattle.std.specs.List.{ItemMut, slice_get};

use crate::fault::Full;
use crate::reserved::Reserved;
use std::alloc::{AllocError, Global};

impl<T, const MOST: usize> Reserved<T, MOST> {
    ghost use Rattle.reserve.specs.Lends.{lends_last};

    /// An empty list; nothing is allocated later.
    pub fn new(heap: Global) -> Result<Reserved<T, MOST>, AllocError>
        ensures { IfOk result (λ r. r ≡ []) }
    {
        let values = Vec::with_capacity(heap, MOST)?;
        Ok(Reserved { values })
    }

    /// How many values there are.
    pub fn len(&self) -> usize
        ensures value { result ≡ length self.now }
        ensures fits { result ≤ MOST }
    {
        self.values.len()
    }

    /// Whether there is none.
    pub fn is_empty(&self) -> bool
        ensures { result ≡ (length self.now == 0) }
    {
        self.values.is_empty()
    }

    /// How many more values fit.
    pub fn room(&self) -> usize
        ensures { result + length self.now ≡ MOST }
    {
        MOST - self.values.len()
    }

    /// The values, in order.
    pub fn as_slice(&self) -> &[T]
        ensures value { result.now ≡ self.now }
        ensures fits { length result.now ≤ MOST }
    {
        self.values.as_slice()
    }

    /// The last value, lent, if there is one.
    pub fn last_mut(&mut self) -> Option<&mut T>
        ensures* writes_back { sem 𝓛 (lends_last T.row MOST.row self.entry result) }
        ensures variant { is_some result ≡ nat_lt 0 (length self.old) }
        ensures value { IfSome result (λ x. x.now ≡ slice_index_or self.old (length self.old - 1) x.now) }
        ensures item { ItemMut self.old 0 (length self.old - 1) result }
    {
        self.values.last_mut()
    }
}

impl<T: Drop, const MOST: usize> Reserved<T, MOST> {
    /// Puts a value behind the others if it fits, and else changes nothing.
    pub fn push(&mut self, value: T) -> Result<(), Full>
        ensures answer { is_ok result ≡ nat_lt (length self.old) MOST }
        ensures after { self.new ≡ (if is_ok result then self.old ++ value ∷ [] else self.old) }
    {
        if self.values.len() >= MOST {
            return Err(Full);
        }
        self.values.push_reserved(value);
        Ok(())
    }

    /// Takes the last value off, if there is one.
    pub fn pop(&mut self) -> Option<T>
        ensures answer { result ≡ slice_get self.old (length self.old - 1) }
        ensures some { is_some result ≡ nat_lt 0 (length self.old) }
        ensures after { self.old ≡ self.new ++ option_to_list result }
        ensures rest { self.new ≡ take (length self.old - 1) self.old }
    {
        self.values.pop()
    }

    /// Keeps the first `n` values, or all if there are fewer.
    pub fn truncate(&mut self, n: usize)
        ensures { self.new ≡ take n self.old }
    {
        self.values.truncate(n);
    }

    /// Takes every value away.
    pub fn clear(&mut self)
        ensures { self.new ≡ [] }
    {
        self.values.clear();
    }
}

impl<T: Copy, const MOST: usize> Reserved<T, MOST> {
    /// Puts these values behind the others if they all fit, and else changes nothing.
    pub fn extend_from_slice(&mut self, values: &[T]) -> Result<(), Full>
        ensures answer { is_ok result ≡ nat_le (length values.now) (MOST - length self.old) }
        ensures after { self.new ≡ (if is_ok result then self.old ++ values.now else self.old) }
    {
        if values.len() > self.room() {
            return Err(Full);
        }
        let _ = self.values.extend_from_slice(values);
        Ok(())
    }

    /// Takes over what another list holds. The room is there, so nothing is allocated.
    pub fn copy_from(&mut self, other: &Reserved<T, MOST>)
        ensures { self.new ≡ other.now }
    {
        self.clear();
        let _ = self.values.extend_from_slice(other.values.as_slice());
    }
}
