//! Decimal numbers.
ghost use Rattle.std.specs.Prelude.{◌≡◌};
ghost use Rattle.script.specs.Number.{grown, number_of};

/// The number `n` with the digit `b` behind it, where `b` is a digit and the number stays in range.
pub(crate) fn grow(n: u32, b: u8) -> Option<u32>
    ensures { result ≡ grown n b }
{
    let digit = (b as char).to_digit(10)?;
    n.checked_mul(10)?.checked_add(digit)
}

/// The number that `word` spells: decimal digits, at least one, and in range.
pub(crate) fn read_number(word: &[u8]) -> Option<u32>
    ensures { result ≡ number_of word.now }
{
    let (first, more) = word.split_first()?;
    more.iter().try_fold(grow(0, *first)?, |n, b| grow(n, *b))
}
