//! The call for a host program in C.
ghost use Rattle.std.specs.Prelude.{◌≡◌, length};
ghost use Rattle.address.specs.Host.{host_answer, layer_code};
ghost use Rattle.address.specs.Resolve.{outcome_of, answered, written};

use crate::fault::{Layer, ResolveFault};
use crate::output::resolve;

/// What the host is told, in the numbers that C reads. `number` is 0 for an answer, and `linked` then says whether there is an address, of `length` bytes;
/// else it is the refusal's number, with its layer (1 page, 2 line, 3 board), the events accepted so far and the place of the bad character.
#[repr(C)]
#[derive(Clone, Copy, Default)]
pub struct HostAnswer {
    pub number: u32,
    pub layer: u32,
    pub events: u64,
    pub place: u64,
    pub linked: u32,
    pub length: u64,
}

impl From<Layer> for u32 {
    ghost from_gives = { λ layer code. code ≡ layer_code layer };

    fn from(layer: Layer) -> u32 {
        match layer {
            Layer::Page => 1,
            Layer::Line => 2,
            Layer::Board => 3,
        }
    }
}

impl From<Result<Option<usize>, ResolveFault>> for HostAnswer {
    ghost from_gives = { λ answer told. told ≡ host_answer answer };

    fn from(answer: Result<Option<usize>, ResolveFault>) -> HostAnswer {
        match answer {
            Ok(None) => HostAnswer::default(),
            Ok(Some(length)) => HostAnswer {
                linked: 1,
                length: length as u64,
                ..HostAnswer::default()
            },
            Err(fault) => HostAnswer {
                number: u32::from(fault.number()),
                layer: u32::from(fault.layer()),
                place: fault.place() as u64,
                ..HostAnswer::default()
            },
        }
    }
}

/// `resolve` for a host in C: byte slices pass as a pointer and a length.
pub fn berth_resolve(
    address: &[u8],
    base: &[u8],
    directory: &[u8],
    out: &mut [u8],
    answer: &mut HostAnswer,
)
    ensures answer { answer.new ≡ host_answer (answered (outcome_of address.now base.now directory.now) (length out.old)) }
    ensures bytes { out.new ≡ written (outcome_of address.now base.now directory.now) out.old }
{
    *answer = HostAnswer::from(resolve(address, base, directory, out));
}
