//! Writing an address from its end to its front.
ghost use Rattle.std.specs.Prelude.{◌≡◌, ◌+◌, ◌<◌, ◌≤◌, ◌++◌, [], Some, length, MatchOption};
ghost use Rattle.address.specs.Buffer.{bytes_of, held, prepended};

use crate::buffer::{ADDRESS_LIMIT, Address, Draft};

impl Address {
    /// Puts a text before what is there, or answers none where it does not fit.
    fn prepend(&mut self, text: &str) -> Option<()>
        ensures { MatchOption result (512 < length text.now + length (bytes_of self.old)) (λ _. (length text.now + length (bytes_of self.old) ≤ 512) × (bytes_of self.new ≡ text.now ++ bytes_of self.old)) }
    {
        let start = self.start.checked_sub(text.len())?;
        let end = self.start;
        self.bytes[start..end].copy_from_slice(text.as_bytes());
        self.start = start;
        Some(())
    }

    /// The address's bytes.
    pub fn as_bytes(&self) -> &[u8]
        ensures { result.now ≡ bytes_of self.now }
    {
        &self.bytes[self.start..]
    }
}

impl Draft {
    /// An address with no byte yet.
    pub(crate) fn new() -> Self
        ensures { held result ≡ Some [] }
    {
        Draft(Some(Address {
            bytes: [0; ADDRESS_LIMIT],
            start: ADDRESS_LIMIT,
        }))
    }

    /// Puts a text before what is there.
    pub(crate) fn prepend(&mut self, text: &str)
        ensures { held self.new ≡ prepended text.now (held self.old) }
    {
        let Some(address) = &mut self.0 else {
            return;
        };
        if address.prepend(text).is_none() {
            self.0 = None;
        }
    }
}
