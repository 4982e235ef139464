//! Records that say something, and what they say.
ghost use Rattle.std.specs.Prelude.{◌≡◌, ◌≤◌, IfSome, OnSome};
ghost use Rattle.events.specs.Parts.{number_serves, part_serves, part_of};

use crate::element::{Element, Event};
use crate::record::Record;

/// The highest number that a list may start with.
pub const HIGHEST_NUMBER: u32 = 999_999_999;

/// An event, and where its part of the text starts and ends.
#[derive(Clone, Copy)]
pub struct Part {
    pub event: Event,
    pub start: usize,
    pub end: usize,
}

// Only a numbered list's start has a number.
fn number_serves(event: Event, number: u32) -> bool
    ensures { result ≡ number_serves event number }
{
    match event {
        Event::Start(Element::NumberedList) => number <= HIGHEST_NUMBER,
        _ => number == 0,
    }
}

// Only the start of a code block, the start of a link, a text and a code span have a part of the text.
fn part_serves(event: Event, start: u32, length: u32) -> bool
    ensures { result ≡ part_serves event start length }
{
    match event {
        Event::Start(Element::CodeBlock | Element::Link) | Event::Text | Event::Code => true,
        _ => start == 0 && length == 0,
    }
}

/// What a record says of a text of that length: none if its kind is unknown, if its part does not lie inside the text, if a field that
/// its event does not use is not 0, or if the number of a list is too high.
pub fn part_of(record: Record, text_length: usize) -> Option<Part>
    ensures part { result ≡ part_of «record» text_length }
    ensures inside { IfSome result (λ p. (p.start ≤ p.end) × (p.end ≤ text_length)) }
    ensures number { OnSome result («record».number ≤ 999999999) }
{
    let event = Event::try_from(record.kind).ok()?;
    let start = record.start as usize;
    let end = start + record.length as usize;
    let serves = number_serves(event, record.number)
        && part_serves(event, record.start, record.length)
        && end <= text_length;
    serves.then_some(Part { event, start, end })
}
