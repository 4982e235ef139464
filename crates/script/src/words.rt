//! How a line falls into words.
ghost use Rattle.std.specs.Prelude.{◌≡◌};
ghost use Rattle.script.specs.Words.{blank, trimmed_end, trimmed_start, trimmed, first_word, behind_word};

/// A space, or the carriage return that some editors write behind a line.
fn is_blank(b: u8) -> bool
    ensures { result ≡ blank b }
{
    b == b' ' || b == b'\r'
}

/// The bytes without the blanks behind them.
fn trim_end(bytes: &[u8]) -> &[u8]
    ensures { result.now ≡ trimmed_end bytes.now }
{
    let behind = bytes.iter().rev().take_while(|b| is_blank(**b)).count();
    &bytes[..bytes.len() - behind]
}

/// The bytes without the spaces before them.
pub(crate) fn trim_start(bytes: &[u8]) -> &[u8]
    ensures { result.now ≡ trimmed_start bytes.now }
{
    let before = bytes.iter().take_while(|b| **b == b' ').count();
    &bytes[before..]
}

/// A line without what surrounds it.
pub(crate) fn trim(bytes: &[u8]) -> &[u8]
    ensures { result.now ≡ trimmed bytes.now }
{
    trim_start(trim_end(bytes))
}

/// The first word, up to the first space, and what stands behind it.
pub(crate) fn split_word(bytes: &[u8]) -> (&[u8], &[u8])
    ensures word { result.0.now ≡ first_word bytes.now }
    ensures rest { result.1.now ≡ behind_word bytes.now }
{
    let end = bytes.iter().position(|b| *b == b' ');
    bytes.split_at(end.unwrap_or(bytes.len()))
}
