//! The numbers of elements and of events.
ghost use Rattle.std.specs.Prelude.{◌≡◌};
ghost use Rattle.std.specs.Result.{result_ok};
ghost use Rattle.events.specs.Kinds.{element_of, event_of};

use crate::element::{Element, Event};

/// A number that names no element or no event.
#[derive(Clone, Copy, PartialEq, Eq, Debug)]
pub struct UnknownKind;

/// The element of a number, from 1.
impl TryFrom<u32> for Element {
    type Error = UnknownKind;

    ghost try_from_gives = { λ number r. result_ok r ≡ element_of number };

    fn try_from(number: u32) -> Result<Element, UnknownKind> {
        match number {
            1 => Ok(Element::Paragraph),
            2 => Ok(Element::Heading),
            3 => Ok(Element::Quote),
            4 => Ok(Element::CodeBlock),
            5 => Ok(Element::BulletList),
            6 => Ok(Element::NumberedList),
            7 => Ok(Element::Item),
            8 => Ok(Element::DefinitionList),
            9 => Ok(Element::Title),
            10 => Ok(Element::Definition),
            11 => Ok(Element::Emphasis),
            12 => Ok(Element::Strong),
            13 => Ok(Element::Strikethrough),
            14 => Ok(Element::Link),
            _ => Err(UnknownKind),
        }
    }
}

/// The event of a kind: 1 to 14 start an element, 101 to 114 end it, 201 to 204 are a text, a code span and the two breaks.
impl TryFrom<u32> for Event {
    type Error = UnknownKind;

    ghost try_from_gives = { λ kind r. result_ok r ≡ event_of kind };

    fn try_from(kind: u32) -> Result<Event, UnknownKind> {
        match kind {
            1..=14 => Element::try_from(kind).map(Event::Start),
            101..=114 => Element::try_from(kind - 100).map(Event::End),
            201 => Ok(Event::Text),
            202 => Ok(Event::Code),
            203 => Ok(Event::SoftBreak),
            204 => Ok(Event::HardBreak),
            _ => Err(UnknownKind),
        }
    }
}
