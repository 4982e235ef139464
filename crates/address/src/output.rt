//! Resolving an address into lent output.
ghost use Rattle.std.specs.Prelude.{◌≡◌, length};
ghost use Rattle.address.specs.Answers.{answer_of};
ghost use Rattle.address.specs.Resolve.{outcome_of, answered, written};

use crate::buffer::Address;
use crate::fault::ResolveFault;
use crate::rewrite::rewrite_url;
use chars::{Breaks, check_text};

// The address that a link gets, from texts that are checked first.
fn rewrite_checked(
    address: &[u8],
    base: &[u8],
    directory: &[u8],
) -> Result<Option<Address>, ResolveFault>
    ensures { answer_of result ≡ outcome_of address.now base.now directory.now }
{
    let url = check_text(address, Breaks::Refused)?;
    let base = check_text(base, Breaks::Refused)?;
    let site_dir = check_text(directory, Breaks::Refused)?;
    rewrite_url(url, base, site_dir)
}

/// Writes the address that a link gets into the lent output and answers its length, or none for a mere anchor.
/// A refusal leaves the output as it was, an answer every byte beyond it. Base and directory are apart, as C hands them over.
pub fn resolve(
    address: &[u8],
    base: &[u8],
    directory: &[u8],
    out: &mut [u8],
) -> Result<Option<usize>, ResolveFault>
    ensures answer { result ≡ answered (outcome_of address.now base.now directory.now) (length out.old) }
    ensures bytes { out.new ≡ written (outcome_of address.now base.now directory.now) out.old }
{
    let Some(resolved) = rewrite_checked(address, base, directory)? else {
        return Ok(None);
    };
    let bytes = resolved.as_bytes();
    let length = bytes.len();
    if length > out.len() {
        return Err(ResolveFault::Output);
    }
    out[0..length].copy_from_slice(bytes);
    Ok(Some(length))
}
