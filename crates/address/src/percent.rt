//! Percent form: in a link sequence an address byte outside 32 to 126 is `%` and two capital hexadecimal digits.
ghost use Rattle.std.specs.Prelude.{◌≡◌, ℕ, ◌+◌, ◌≤◌, ◌++◌, length, take, drop, is_some, if◌then◌else◌, Some, None, nat_le};
ghost use Rattle.address.specs.Percent.{printable, percent_byte, percent, Printable};

use chars::hex_digits;

// Whether a byte stands for itself.
fn is_printable(byte: u8) -> bool
    ensures { result ≡ printable byte }
{
    matches!(byte, 32..=126)
}

// How many bytes a byte's percent form has.
fn byte_length(byte: u8) -> usize
    ensures { result ≡ length (percent_byte byte) }
{
    if is_printable(byte) { 1 } else { 3 }
}

/// How many bytes the percent form has, or none where that is more than the room.
pub(crate) fn percent_length(address: &[u8], room: usize) -> Option<usize>
    ensures { result ≡ (if nat_le (length (percent address.now)) room then Some (length (percent address.now)) else None) }
{
    address.iter().try_fold(0usize, |length, byte| {
        let length = length.checked_add(byte_length(*byte));
        length.filter(|length| *length <= room)
    })
}

// Writes a byte's percent form at the front of the output, and answers how many bytes it has.
fn put_byte(byte: u8, out: &mut [u8]) -> usize
    requires { length (percent_byte byte) ≤ length out.old }
    ensures count { result ≡ length (percent_byte byte) }
    ensures bytes { out.new ≡ percent_byte byte ++ drop (length (percent_byte byte)) out.old }
{
    if is_printable(byte) {
        out[0] = byte;
        return 1;
    }
    let (high, low) = hex_digits(byte);
    out[..3].copy_from_slice(&[b'%', high, low]);
    3
}

/// Writes the percent form of an address into the lent output and answers its length, or none, with the output as it was, where that is more than was lent.
pub fn percent_form(address: &[u8], out: &mut [u8]) -> Option<usize>
    ensures answer { result ≡ (if nat_le (length (percent address.now)) (length out.old) then Some (length (percent address.now)) else None) }
    ensures bytes { out.new ≡ (if is_some result then percent address.now ++ drop (length (percent address.now)) out.old else out.old) }
    ensures plain { (n : ℕ) → result ≡ Some n → Printable (take n out.new) }
    ensures identity { (n : ℕ) → result ≡ Some n → (take n out.new ≡ address.now → Printable address.now) × (Printable address.now → take n out.new ≡ address.now) }
{
    let length = percent_length(address, out.len())?;
    // A place and no slice that moves along: of what a loop wrote through such a slice a proof knows nothing.
    let mut at = 0;
    for byte in address {
        at += put_byte(*byte, &mut out[at..]);
    }
    Some(length)
}
