//! Character tables: for each character its width in columns, and whether it is blank.
ghost use Rattle.std.specs.Prelude.{◌≡◌, ℕ, ◌≤◌, Bool, true};

/// What a display knows of its characters. A table answers for every code point, and for one always the same.
pub trait CharTable {
    ghost columns: { Self → ℕ → ℕ };

    ghost blank: { Self → ℕ → Bool };

    /// How many columns the character takes.
    fn width(&self, c: char) -> u8
        ensures { result ≡ columns self.now c };

    /// Whether the character shows nothing and a line may end at it.
    fn is_blank(&self, c: char) -> bool
        ensures { result ≡ blank self.now c };

    ghost at_most_two_wide: { (t : Self) (c : ℕ) → columns t c ≤ 2 };

    ghost space_is_one_wide: { (t : Self) → columns t 32 ≡ 1 };

    ghost space_is_blank: { (t : Self) → blank t 32 ≡ true };

    ghost tab_is_blank: { (t : Self) → blank t 9 ≡ true };

    ghost newline_is_blank: { (t : Self) → blank t 10 ≡ true };
}
