//! How an address begins, and its parts: path, query and anchor.
ghost use Rattle.std.specs.Prelude.{◌≡◌, ◌<◌, true, false};
ghost use Rattle.address.specs.Reference.{before, since, scheme_byte, scheme_ends, has_scheme, form_of};

/// How an address begins.
#[derive(Clone, Copy)]
pub(crate) enum Form {
    /// A scheme and `:`.
    Scheme,
    /// `#`, or the address is empty.
    Anchor,
    /// `//`.
    Network,
    /// `/`.
    Absolute,
    /// Anything else.
    Relative,
}

fn is_scheme_byte(byte: u8) -> bool
    ensures { result ≡ scheme_byte byte }
{
    byte.is_ascii_alphanumeric() || matches!(byte, b'+' | b'-' | b'.')
}

// Whether a scheme goes on in these bytes, up to its `:`.
fn scheme_ends(rest: &[u8]) -> bool
    ensures { result ≡ scheme_ends rest.now }
{
    rest.iter().find(|byte| !is_scheme_byte(**byte)) == Some(&b':')
}

// Whether an address begins with a scheme and its `:`.
fn has_scheme(address: &[u8]) -> bool
    ensures { result ≡ has_scheme address.now }
{
    match address {
        [first, rest @ ..] => first.is_ascii_alphabetic() && scheme_ends(rest),
        [] => false,
    }
}

/// How the address begins.
pub(crate) fn form_of(address: &str) -> Form
    ensures { result ≡ form_of address.now }
{
    let address = address.as_bytes();
    if has_scheme(address) {
        return Form::Scheme;
    }
    match address {
        [] | [b'#', ..] => Form::Anchor,
        [b'/', b'/', ..] => Form::Network,
        [b'/', ..] => Form::Absolute,
        _ => Form::Relative,
    }
}

/// The text before the first mark, and the text from it on.
pub(crate) fn cut(text: &str, mark: char) -> (&str, &str)
    requires { mark < 128 }
    ensures front { result.0.now ≡ before mark text.now }
    ensures back { result.1.now ≡ since mark text.now }
{
    text.split_at(text.find(mark).unwrap_or(text.len()))
}
