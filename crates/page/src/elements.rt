//! What each element does to the rows.
ghost use Rattle.std.specs.Prelude.{◌≡◌};
ghost use Rattle.page.specs.Elements.{style_of, segment_of, due_before, due_after, inline, forces as forces_row_end};

use events::{Element, Event};
use line::Segment;
use style::Style;

/// The style that an element puts on. A link's counts only where links are on, so it is not here.
pub(crate) fn style_of(element: Element) -> Option<Style>
    ensures { result ≡ style_of element }
{
    match element {
        Element::Heading => Some(Style::Heading),
        Element::CodeBlock => Some(Style::Code),
        Element::Title => Some(Style::Term),
        Element::Emphasis => Some(Style::Emphasis),
        Element::Strong => Some(Style::Strong),
        Element::Strikethrough => Some(Style::Strikethrough),
        _ => None,
    }
}

/// The part that an element adds to the margin. An item's is as wide as its marker, so it is not here.
pub(crate) fn segment_of(element: Element) -> Option<Segment>
    ensures { result ≡ segment_of element }
{
    match element {
        Element::Quote => Some(Segment::Quote),
        Element::CodeBlock | Element::Definition => Some(Segment::Indent(4)),
        _ => None,
    }
}

/// Whether a blank row stands before an element.
pub(crate) fn due_before(element: Element) -> bool
    ensures { result ≡ due_before element }
{
    matches!(element, Element::Heading | Element::Title)
}

/// Whether a blank row stands behind an element.
pub(crate) fn due_after(element: Element) -> bool
    ensures { result ≡ due_after element }
{
    match element {
        Element::Paragraph | Element::Heading | Element::Quote | Element::CodeBlock => true,
        Element::BulletList | Element::NumberedList | Element::Definition => true,
        _ => false,
    }
}

// Whether an element stands in a row of text.
fn is_inline(element: Element) -> bool
    ensures { result ≡ inline element }
{
    matches!(
        element,
        Element::Emphasis | Element::Strong | Element::Strikethrough | Element::Link
    )
}

/// Whether an event ends the row before it: a hard break does, and the start or end of an element that stands in no row of text.
pub(crate) fn forces(event: Event) -> bool
    ensures { result ≡ forces_row_end event }
{
    match event {
        Event::Start(element) | Event::End(element) => !is_inline(element),
        Event::HardBreak => true,
        _ => false,
    }
}
