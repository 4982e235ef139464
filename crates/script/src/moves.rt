//! Where a byte leads a reader of strings, and what it does on the way.
ghost use Rattle.std.specs.Prelude.{◌≡◌};
ghost use Rattle.script.specs.Moves.{hex_of, moved};

use crate::numbers::grow;

/// Where a reader of strings stands: between strings, in one, behind a backslash, before the first and
/// before the second digit of `\x`, behind the closing quote, behind a star, and in the number behind it.
#[derive(Clone, Copy)]
pub enum Place {
    Gap,
    Inside,
    Escape,
    High,
    Low(u8),
    Closed,
    Star,
    Count(u32),
}

/// What a byte makes a reader do: nothing, add a byte to the string that it reads, or join that string,
/// so many times, to those before it.
#[derive(Clone, Copy)]
pub enum Act {
    Wait,
    Add(u8),
    Join(u32),
}

/// A reader's next place, and what it does on the way.
#[derive(Clone, Copy)]
pub struct Move {
    pub place: Place,
    pub act: Act,
}

/// The value of a hexadecimal digit.
fn hex_value(b: u8) -> Option<u8>
    ensures { result ≡ hex_of b }
{
    let digit = (b as char).to_digit(16)?;
    Some(digit as u8)
}

/// Where the byte `b` leads from a place, or nowhere, if it cannot stand there.
pub(crate) fn follow(place: Place, b: u8) -> Option<Move>
    ensures { result ≡ moved place b }
{
    let (place, act) = match (place, b) {
        (Place::Gap, b' ') => (Place::Gap, Act::Wait),
        (Place::Gap, b'"') => (Place::Inside, Act::Wait),
        (Place::Inside, b'"') => (Place::Closed, Act::Wait),
        (Place::Inside, b'\\') => (Place::Escape, Act::Wait),
        (Place::Inside, _) => (Place::Inside, Act::Add(b)),
        (Place::Escape, b'"' | b'\\') => (Place::Inside, Act::Add(b)),
        (Place::Escape, b'n') => (Place::Inside, Act::Add(b'\n')),
        (Place::Escape, b't') => (Place::Inside, Act::Add(b'\t')),
        (Place::Escape, b'x') => (Place::High, Act::Wait),
        (Place::High, _) => (Place::Low(hex_value(b)?), Act::Wait),
        (Place::Low(h), _) => {
            let byte = h.wrapping_mul(16).wrapping_add(hex_value(b)?);
            (Place::Inside, Act::Add(byte))
        }
        (Place::Closed, b' ') => (Place::Gap, Act::Join(1)),
        (Place::Closed, b'*') => (Place::Star, Act::Wait),
        (Place::Star, _) => (Place::Count(grow(0, b)?), Act::Wait),
        (Place::Count(n), b' ') => (Place::Gap, Act::Join(n)),
        (Place::Count(n), _) => (Place::Count(grow(n, b)?), Act::Wait),
        (Place::Gap | Place::Escape | Place::Closed, _) => return None,
    };
    Some(Move { place, act })
}
