//! Bytes, printed as a string.
ghost use Rattle.std.specs.Prelude.{◌≡◌, ◌≤◌, ◌++◌, length, drop, Some, OnOk};
ghost use Rattle.script.specs.Strings.{string_of};
ghost use Rattle.script.specs.Printed.{special, plain, escaped, inner, printed, Stands, ReadsBack};

use chars::{first_char, hex_digits, is_control};
use std::alloc::AllocError;
use std::fmt;
use std::str::from_utf8;

/// A piece of what stands as it is ends once it has so many bytes, and so has at most three more: what it is put behind
/// then doubles its room, and does not take it for a long piece at once.
const PIECE: usize = 61;

/// Bytes that are printed as a string.
#[derive(Clone, Copy)]
pub struct Quoted<'a>(pub &'a [u8]);

/// Bytes that are printed as what stands between the quotes.
#[derive(Clone, Copy)]
struct Inner<'a>(&'a [u8]);

/// A byte that does not stand as it is.
#[derive(Clone, Copy)]
struct Escaped(u8);

/// Whether a character does not stand as it is.
fn is_special(c: char) -> bool
    ensures { result ≡ special c }
{
    is_control(c) || c == '"' || c == '\\'
}

impl fmt::Display for Escaped {
    ghost output = { λ e. Some (escaped e.0) };

    fn fmt<W: fmt::Write>(&self, f: &mut fmt::Formatter<W>) -> fmt::Result {
        match self.0 {
            b'"' => f.write_str("\\\""),
            b'\\' => f.write_str("\\\\"),
            b'\n' => f.write_str("\\n"),
            b'\t' => f.write_str("\\t"),
            b => {
                // By hand: a proof from what the library says of `{b:02X}` was not tried.
                let (high, low) = hex_digits(b);
                f.write_str("\\x")?;
                f.write_char(high as char)?;
                f.write_char(low as char)
            }
        }
    }
}

/// How many bytes at the front stand as they are.
fn plain_len(bytes: &[u8]) -> usize
    ensures value { result ≡ plain bytes.now }
    ensures within { result ≤ length bytes.now }
{
    match bytes {
        // Most characters are of ASCII, and of these no length has to be found.
        [b, ..] if b.is_ascii() => usize::from(!is_special(*b as char)),
        _ => match first_char(bytes) {
            Some(c) if !is_special(c) => c.len_utf8(),
            _ => 0,
        },
    }
}

/// How many bytes the piece at the front has, of whole characters that stand as they are: none only if no such character
/// is there.
fn plain_run(bytes: &[u8]) -> usize
    ensures stands { Stands bytes.now result }
    ensures none { result ≡ 0 → plain bytes.now ≡ 0 }
{
    let mut run = 0;
    loop {
        let n = plain_len(&bytes[run..]);
        if n == 0 || run >= PIECE {
            return run;
        }
        run += n;
    }
}

impl fmt::Display for Inner<'_> {
    ghost output = { λ i. Some (inner 0 i.0.now) };

    // What stands as it is goes out in pieces, up to the next byte that does not.
    fn fmt<W: fmt::Write>(&self, f: &mut fmt::Formatter<W>) -> fmt::Result {
        let mut rest = self.0;
        while let [first, more @ ..] = rest {
            let (plain, behind) = rest.split_at(plain_run(rest));
            if plain.is_empty() {
                let escaped = Escaped(*first);
                write!(f, "{escaped}")?;
                rest = more;
            } else {
                f.write_str(from_utf8(plain).unwrap())?;
                rest = behind;
            }
        }
        Ok(())
    }
}

impl fmt::Display for Quoted<'_> {
    ghost output = { λ q. Some (printed q.0.now) };

    fn fmt<W: fmt::Write>(&self, f: &mut fmt::Formatter<W>) -> fmt::Result {
        let inner = Inner(self.0);
        write!(f, "\"{inner}\"")
    }
}

/// Prints a byte that does not stand as it is.
fn write_escaped(out: &mut Vec<u8>, b: u8) -> Result<(), AllocError>
    ensures { OnOk result (out.new.items ≡ out.old.items ++ escaped b) }
{
    match b {
        b'"' => out.extend_from_slice(b"\\\""),
        b'\\' => out.extend_from_slice(b"\\\\"),
        b'\n' => out.extend_from_slice(b"\\n"),
        b'\t' => out.extend_from_slice(b"\\t"),
        _ => {
            let (high, low) = hex_digits(b);
            out.extend_from_slice(&[b'\\', b'x', high, low])
        }
    }
}

/// Prints what stands between the quotes. `Inner` prints the same, but into text, which the bytes of `out` need not be.
fn write_inner(out: &mut Vec<u8>, bytes: &[u8]) -> Result<(), AllocError>
    ensures { OnOk result (out.new.items ≡ out.old.items ++ inner 0 bytes.now) }
{
    let mut rest = bytes;
    while let [first, more @ ..] = rest {
        let (plain, behind) = rest.split_at(plain_run(rest));
        if plain.is_empty() {
            write_escaped(out, *first)?;
            rest = more;
        } else {
            out.extend_from_slice(plain)?;
            rest = behind;
        }
    }
    Ok(())
}

/// Prints the bytes as a string, behind what `out` holds.
#[tactic(auto, using(crate::proofs::Back::reads_back_lem))]
pub fn write_string(out: &mut Vec<u8>, bytes: &[u8]) -> Result<(), AllocError>
    ensures appends { OnOk result (out.new.items ≡ out.old.items ++ printed bytes.now) }
    ensures reads_back { OnOk result (string_of (drop (length out.old.items) out.new.items) ≡ Some bytes.now) }
    ensures law { ReadsBack }
{
    // Room for the longest piece, so that from here on the room doubles, whatever the pieces; and no more than will be used.
    out.reserve((bytes.len() + 2).min(PIECE + 3))?;
    out.push(b'"')?;
    write_inner(out, bytes)?;
    out.push(b'"')?;
    Ok(())
}
