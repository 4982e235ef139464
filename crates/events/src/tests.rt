//! Edges of what a record says and of where an event may stand.
use crate::element::{Element, Event};
use crate::nesting::has_place;
use crate::part::part_of;
use crate::record::Record;

// Whether a record says something of a text of ten bytes.
fn says(kind: u32, number: u32, start: u32, length: u32) -> bool {
    let record = Record {
        kind,
        number,
        start,
        length,
    };
    part_of(record, 10).is_some()
}

#[test]
fn records(rt: HostRuntime) {
    for (kind, number, start, length, expected) in [
        (0, 0, 0, 0, false),
        (1, 0, 0, 0, true),
        (15, 0, 0, 0, false),
        (114, 0, 0, 0, true),
        (205, 0, 0, 0, false),
        (6, 999_999_999, 0, 0, true),
        (6, 1_000_000_000, 0, 0, false),
        (5, 1, 0, 0, false),
        (201, 0, 10, 0, true),
        (201, 0, 11, 0, false),
        (202, 0, 4, 6, true),
        (202, 0, 4, 7, false),
        (4, 0, u32::MAX, u32::MAX, false),
        (14, 0, 0, 10, true),
        (203, 0, 0, 1, false),
        (104, 0, 1, 0, false),
    ] {
        assert_eq!(rt; says(kind, number, start, length), expected);
    }
}

#[test]
fn places(rt: HostRuntime) {
    let link = [Element::Paragraph, Element::Link, Element::Strong];
    assert!(rt; !has_place(&link, Event::Start(Element::Link)));
    assert!(rt; has_place(&link, Event::End(Element::Strong)));
    assert!(rt; !has_place(&link, Event::End(Element::Link)));
    assert!(rt; has_place(&[Element::CodeBlock], Event::Text));
    assert!(rt; !has_place(&[Element::CodeBlock], Event::HardBreak));
    assert!(rt; has_place(&[Element::BulletList, Element::Item], Event::Code));
    assert!(rt; !has_place(&[Element::BulletList], Event::Start(Element::Paragraph)));
    assert!(rt; has_place(&[Element::DefinitionList], Event::Start(Element::Title)));
    assert!(rt; has_place(&[], Event::Start(Element::Heading)));
    assert!(rt; !has_place(&[], Event::Text));
    assert!(rt; !has_place(&[], Event::End(Element::Paragraph)));
}
