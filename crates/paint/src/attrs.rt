//! How a text is shown.
ghost use Rattle.std.specs.Prelude.{◌≡◌};
ghost use Rattle.paint.specs.Looks.{looks_of, bare, allowed};

use crate::link::LinkTarget;
use crate::styles::{StyleList, no_style};

/// The presentation attributes of a run of text.
#[derive(Clone, Copy)]
pub struct RunAttrs {
    pub styles: StyleList,
    pub link: LinkTarget,
}

impl RunAttrs {
    /// No style and no link.
    pub fn new() -> RunAttrs
        ensures { looks_of result ≡ bare }
    {
        RunAttrs {
            styles: no_style(),
            link: LinkTarget::Unlinked,
        }
    }

    /// What is left of the attributes where colours or links are off.
    pub fn allowed(&self, color: bool, hyperlinks: bool) -> RunAttrs
        ensures { looks_of result ≡ allowed color hyperlinks (looks_of self.now) }
    {
        let styles = if color { self.styles } else { no_style() };
        let link = if hyperlinks {
            self.link
        } else {
            LinkTarget::Unlinked
        };
        RunAttrs { styles, link }
    }
}
