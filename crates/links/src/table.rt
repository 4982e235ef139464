//! A table of addresses.
ghost use Rattle.std.specs.Prelude.{◌≡◌, ◌≤◌, true, length};
ghost use Rattle.links.specs.Addresses.{distinct};
ghost use Rattle.links.specs.Spans.{chained, addresses_in};

use crate::span::Span;
use reserve::Reserved;

/// How many addresses there may be, and how many bytes they may have together.
pub(crate) const MOST_ADDRESSES: usize = 256;

pub(crate) const MOST_BYTES: usize = 16_384;

/// Addresses, one behind the other, no two of them equal, with room for 256 of them and 16,384 bytes taken once.
/// Spans cut them out of the bytes, so that no address has memory of its own, which would be taken later.
#[derive(Drop)]
pub struct AddressTable {
    pub(crate) spans: Reserved<Span, MOST_ADDRESSES>,
    pub(crate) bytes: Reserved<u8, MOST_BYTES>,
    ghost few: { length spans ≤ 256 },
    ghost short: { length bytes ≤ 16384 },
    ghost joined: { chained 0 spans (length bytes) ≡ true },
    ghost once: { distinct (addresses_in spans bytes) ≡ true },
}
