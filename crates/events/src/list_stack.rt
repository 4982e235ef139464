//! The open lists, the innermost last, and counting their items.
ghost use Rattle.std.specs.Prelude.{◌≡◌};
ghost use Rattle.events.specs.Lists.{top_frame, raised};

use crate::frame::ListFrame;
use reserve::Reserved;

/// How many lists may be open at once.
pub(crate) const DEEPEST_LIST: usize = 32;

/// Open lists, with room for 32 taken once.
pub type ListStack = Reserved<ListFrame, DEEPEST_LIST>;

/// The innermost list as its next item finds it, which is then counted: its number, if it has one, goes up by one.
pub fn next_marker(lists: &mut ListStack) -> Option<ListFrame>
    ensures answer { result ≡ top_frame lists.old }
    ensures after { lists.new ≡ raised lists.old }
{
    let frame = lists.last_mut()?;
    let found = *frame;
    frame.ordinal = found.ordinal.map(|number| number.saturating_add(1));
    Some(found)
}
