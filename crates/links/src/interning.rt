//! Looking addresses up, and adding them.
ghost use Rattle.std.specs.Prelude.{◌≡◌, true, [], length, IfOk};
ghost use Rattle.std.specs.Result.{result_ok};
ghost use Rattle.links.specs.Addresses.{address_at, place_of, room_for, interned, held, distinct};
ghost use Rattle.links.specs.Tables.{addresses};

use crate::span::Span;
use crate::table::AddressTable;
use reserve::{Full, Reserved};
use std::alloc::{AllocError, Global};

impl AddressTable {
    /// No addresses; nothing is allocated later.
    pub fn new(heap: Global) -> Result<AddressTable, AllocError>
        ensures { IfOk result (λ t. addresses t ≡ []) }
    {
        let spans = Reserved::new(heap)?;
        let bytes = Reserved::new(heap)?;
        Ok(AddressTable { spans, bytes })
    }

    /// How many addresses there are.
    pub fn len(&self) -> usize
        ensures { result ≡ length (addresses self.now) }
    {
        self.spans.len()
    }

    /// The address at a place, or the empty one where there is none.
    #[tactic(auto, using(crate::proofs::TableFacts::span_in))]
    pub fn get(&self, index: usize) -> &[u8]
        ensures { result.now ≡ address_at (addresses self.now) index }
    {
        let bytes = self.bytes.as_slice();
        match self.spans.as_slice().get(index) {
            Some(span) => &bytes[span.start..span.start + span.length],
            None => &[],
        }
    }

    // The place of the first address that equals this one.
    fn place_of(&self, address: &[u8]) -> Option<usize>
        ensures { result ≡ place_of (addresses self.now) address.now }
    {
        (0..self.len()).find(|place| self.get(*place) == address)
    }

    // Whether an address of that length fits.
    #[tactic(auto, using(crate::proofs::TableFacts::count_is, crate::proofs::TableFacts::bytes_count))]
    fn has_room(&self, length: usize) -> bool
        ensures { result ≡ room_for (addresses self.now) length }
    {
        self.spans.room() > 0 && length <= self.bytes.room()
    }

    /// The place of an address: where an equal one stands, or behind the others, where it is added if there is room.
    pub fn intern(&mut self, address: &[u8]) -> Result<usize, Full>
        ensures answer { result_ok result ≡ interned (addresses self.old) address.now }
        ensures after { addresses self.new ≡ held (addresses self.old) address.now }
        ensures once { distinct (addresses self.new) ≡ true }
    {
        if let Some(place) = self.place_of(address) {
            return Ok(place);
        }
        let length = address.len();
        if !self.has_room(length) {
            return Err(Full);
        }
        let place = self.spans.len();
        let start = self.bytes.len();
        // There is room, so both lists take what they are given.
        let _ = self.bytes.extend_from_slice(address);
        let _ = self.spans.push(Span { start, length });
        Ok(place)
    }
}
