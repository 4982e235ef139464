//! What a page refuses, with the fault of the layer below inside.
ghost use Rattle.std.specs.Prelude.{◌≡◌};
ghost use Rattle.page.specs.declared.fault.PageFault.TheVariants.{Line as of_line};
ghost use Rattle.page.specs.Refusals.{number_of, layer_of, place_of};

use address::Layer;
use line::LineFault;

/// Why a call is refused.
#[derive(Clone, Copy)]
pub enum PageFault {
    /// A close was accepted before.
    Closed,
    /// 1,000,000 events were accepted before.
    Long,
    /// The record says nothing that can be read.
    Record,
    /// The first bad character of the part, the base or the directory stands at this place.
    Text(usize),
    /// The event has no place there.
    Nesting,
    /// It would open a 33rd element.
    Deep,
    /// `..` with no segment left.
    Site,
    /// The base or an address is too long, or there are too many addresses.
    Address,
    /// A close with an element open.
    Open,
    /// A word, a row or the board is full.
    Line(LineFault),
}

/// A refusal: why, and how many events were accepted so far.
#[derive(Clone, Copy)]
pub struct Refusal {
    pub fault: PageFault,
    pub events: u32,
}

impl PageFault {
    /// The refusal's number, by which a host is told of it.
    pub fn number(&self) -> u8
        ensures { result ≡ number_of self.now }
    {
        match self {
            PageFault::Closed => 1,
            PageFault::Long => 2,
            PageFault::Record => 3,
            PageFault::Text(_) => 4,
            PageFault::Nesting => 5,
            PageFault::Deep => 6,
            PageFault::Site => 7,
            PageFault::Address => 8,
            PageFault::Open => 9,
            PageFault::Line(LineFault::Held) => 10,
            PageFault::Line(LineFault::Row(_)) => 11,
            PageFault::Line(LineFault::Board(_)) => 12,
        }
    }

    /// The layer that refuses.
    pub fn layer(&self) -> Layer
        ensures { result ≡ layer_of self.now }
    {
        match self {
            PageFault::Line(LineFault::Board(_)) => Layer::Board,
            PageFault::Line(_) => Layer::Line,
            _ => Layer::Page,
        }
    }

    /// The place of the bad character, else 0, as C and answers have it.
    pub fn place(&self) -> usize
        ensures { result ≡ place_of self.now }
    {
        match self {
            PageFault::Text(place) => *place,
            _ => 0,
        }
    }
}

impl From<LineFault> for PageFault {
    ghost from_gives = { λ e r. r ≡ of_line e };

    fn from(fault: LineFault) -> PageFault {
        PageFault::Line(fault)
    }
}
