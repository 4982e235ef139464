//! The resolver for a host program in C.
#![tactic(auto)]

ghost use Rattle.std.specs.Prelude.{◌≡◌, length};
ghost use Rattle.address.specs.Host.{host_answer};
ghost use Rattle.address.specs.Resolve.{outcome_of, answered, written};

use address::HostAnswer;

/// `resolve` for a host in C: byte slices pass as a pointer and a length.
#[unsafe(no_mangle)]
pub extern "C" fn berth_resolve(
    address: &[u8],
    base: &[u8],
    directory: &[u8],
    out: &mut [u8],
    answer: &mut HostAnswer,
)
    ensures answer { answer.new ≡ host_answer (answered (outcome_of address.now base.now directory.now) (length out.old)) }
    ensures bytes { out.new ≡ written (outcome_of address.now base.now directory.now) out.old }
{
    address::berth_resolve(address, base, directory, out, answer);
}
