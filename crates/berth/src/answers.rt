//! The lines that answer calls.
ghost use Rattle.std.specs.Prelude.{◌≡◌, Some};
ghost use Rattle.berth.specs.Answers.{line_for, line_of};

use address::ResolveFault;
use script::Quoted;
use std::fmt;

/// What a call is answered by, which is printed as a line.
#[derive(Clone, Copy)]
pub enum Answer<'a> {
    /// An address was resolved.
    Address(&'a [u8]),
    /// There is no link.
    NoLink,
    /// The call was refused.
    Refused(ResolveFault),
}

impl<'a> Answer<'a> {
    /// What was resolved; the address is the front of `space`.
    pub(crate) fn new(found: Result<Option<usize>, ResolveFault>, space: &'a [u8]) -> Answer<'a>
        ensures { line_of result ≡ line_for found space.now }
    {
        match found {
            Ok(Some(length)) => Answer::Address(&space[..length.min(space.len())]),
            Ok(None) => Answer::NoLink,
            Err(fault) => Answer::Refused(fault),
        }
    }
}

impl fmt::Display for Answer<'_> {
    ghost output = { λ a. Some (line_of a) };

    fn fmt<W: fmt::Write>(&self, f: &mut fmt::Formatter<W>) -> fmt::Result {
        match self {
            Answer::Address(bytes) => {
                let address = Quoted(bytes);
                write!(f, "address {address}\n")
            }
            Answer::NoLink => f.write_str("none\n"),
            Answer::Refused(fault) => {
                let number = fault.number();
                let layer = fault.layer();
                let place = fault.place();
                // a resolve call comes with no events
                write!(f, "refused {number} {layer} 0 {place}\n")
            }
        }
    }
}
