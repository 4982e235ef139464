//! What painting refuses.
ghost use Rattle.std.specs.Prelude.{◌≡◌};

use reserve::Full;

/// A row above 8,192 bytes.
#[derive(Clone, Copy, PartialEq, Eq, Debug)]
pub struct RowFault;

impl From<Full> for RowFault {
    ghost from_gives = { λ _ r. r ≡ record {} };

    fn from(_full: Full) -> RowFault {
        RowFault
    }
}
