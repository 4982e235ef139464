//! Where a text leads.
ghost use Rattle.std.specs.Prelude.{◌≡◌};
ghost use Rattle.paint.specs.Looks.{linked};
ghost use Rattle.paint.specs.Linking.{same_link};

/// The target of a link: an address by its number in the page's table. An enum of its own, as the Rust that is ported has it.
#[derive(Clone, Copy, PartialEq, Eq, Debug)]
pub enum LinkTarget {
    /// The text is not linked.
    Unlinked,
    /// The text is linked to the address of that number.
    Linked(usize),
}

impl LinkTarget {
    /// Whether there is a link.
    pub fn is_linked(self) -> bool
        ensures { result ≡ linked self }
    {
        matches!(self, LinkTarget::Linked(_))
    }

    /// Whether two texts lead to the same address, or neither leads anywhere: the derived `==`, with a promise of its own.
    pub fn is_same(self, other: LinkTarget) -> bool
        ensures { result ≡ same_link self other }
    {
        self == other
    }
}
