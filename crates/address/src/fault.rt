//! Why an address is not resolved.
ghost use Rattle.std.specs.Prelude.{◌≡◌, Some};
ghost use Rattle.address.specs.Refusals.{layer_name, number_of, layer_of, place_of};
ghost use Rattle.address.specs.declared.fault.ResolveFault.TheVariants.{Text as bad_text};

use chars::BadText;
use std::fmt;

/// The layer that refuses.
#[derive(Clone, Copy, PartialEq, Eq, Debug)]
pub enum Layer {
    Page,
    Line,
    Board,
}

impl fmt::Display for Layer {
    ghost output = { λ layer. Some (layer_name layer) };

    fn fmt<W: fmt::Write>(&self, f: &mut fmt::Formatter<W>) -> fmt::Result {
        f.write_str(match self {
            Self::Page => "page",
            Self::Line => "line",
            Self::Board => "board",
        })
    }
}

/// A refusal of the resolver, one case for each kind.
#[derive(Clone, Copy, PartialEq, Eq, Debug)]
pub enum ResolveFault {
    /// The first bad character of the address, the base or the directory stands at this place.
    Text(usize),
    /// `..` with no segment left.
    Site,
    /// The base or the resolved address is too long.
    Address,
    /// The answer needs more bytes than were lent.
    Output,
}

impl ResolveFault {
    /// The refusal's number, by which C and a reader of answers are told of it.
    pub fn number(&self) -> u8
        ensures { result ≡ number_of self.now }
    {
        match self {
            ResolveFault::Text(_) => 4,
            ResolveFault::Site => 7,
            ResolveFault::Address => 8,
            ResolveFault::Output => 13,
        }
    }

    /// The refusal's layer: all of the resolver's are the page's.
    pub fn layer(&self) -> Layer
        ensures { result ≡ layer_of self.now }
    {
        Layer::Page
    }

    /// The place of the bad character, else 0, as C and answers have it.
    pub fn place(&self) -> usize
        ensures { result ≡ place_of self.now }
    {
        match self {
            ResolveFault::Text(place) => *place,
            _ => 0,
        }
    }
}

impl From<BadText> for ResolveFault {
    ghost from_gives = { λ bad fault. fault ≡ bad_text bad.place };

    fn from(bad: BadText) -> ResolveFault {
        ResolveFault::Text(bad.place)
    }
}
