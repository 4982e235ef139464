//! The tables at the ends of their ranges, and the text check at each kind of bad bytes.
use super::*;

#[test]
fn wide_widths(rt: HostRuntime) {
    // The characters before, at both ends of, and behind each range, and the width within.
    let ranges = [
        ('\u{2FF}', '\u{300}', '\u{36F}', '\u{370}', 0),
        ('\u{200A}', '\u{200B}', '\u{200F}', '\u{2010}', 0),
        ('\u{FDFF}', '\u{FE00}', '\u{FE0F}', '\u{FE10}', 0),
        ('\u{10FF}', '\u{1100}', '\u{115F}', '\u{1160}', 2),
        ('\u{2E7F}', '\u{2E80}', '\u{303E}', '\u{303F}', 2),
        ('\u{3040}', '\u{3041}', '\u{4DBF}', '\u{4DC0}', 2),
        ('\u{4DFF}', '\u{4E00}', '\u{A4CF}', '\u{A4D0}', 2),
        ('\u{ABFF}', '\u{AC00}', '\u{D7A3}', '\u{D7A4}', 2),
        ('\u{F8FF}', '\u{F900}', '\u{FAFF}', '\u{FB00}', 2),
        ('\u{FEFF}', '\u{FF00}', '\u{FF60}', '\u{FF61}', 2),
        ('\u{1F2FF}', '\u{1F300}', '\u{1F64F}', '\u{1F650}', 2),
        ('\u{0}', '\u{20}', '\u{7E}', '\u{10FFFF}', 1),
    ];
    for (before, first, last, behind, width) in ranges {
        for (c, expected) in [(before, 1), (first, width), (last, width), (behind, 1)] {
            assert_eq!(rt; Wide.width(c), expected);
        }
    }
}

#[test]
fn blanks(rt: HostRuntime) {
    // Characters at and around the blank ranges, no-break spaces and others, and whether each table calls them blank.
    let cases = [
        ('\u{8}', false, false),
        ('\u{9}', true, true),
        ('\u{A}', true, true),
        ('\u{D}', true, true),
        ('\u{E}', false, false),
        ('\u{1F}', false, false),
        ('\u{20}', true, true),
        ('\u{21}', false, false),
        ('\u{A0}', false, false),
        ('\u{300}', false, false),
        ('\u{1FFF}', false, false),
        ('\u{2000}', true, false),
        ('\u{2006}', true, false),
        ('\u{2007}', false, false),
        ('\u{2008}', true, false),
        ('\u{200A}', true, false),
        ('\u{200B}', false, false),
        ('\u{202F}', false, false),
        ('\u{2FFF}', false, false),
        ('\u{3000}', true, false),
        ('\u{3001}', false, false),
        ('\u{FEFF}', false, false),
        ('\u{1F300}', false, false),
    ];
    for (c, wide, panel) in cases {
        assert_eq!(rt; Wide.is_blank(c), wide);
        assert_eq!(rt; Panel.is_blank(c), panel);
        assert_eq!(rt; Panel.width(c), 1);
    }
}

#[test]
fn widths_of_texts(rt: HostRuntime) {
    let cases = [
        ("", 0, 0),
        ("pier 4", 6, 6),
        ("e\u{301}te\u{301}", 3, 5),
        ("港 1", 4, 3),
        ("\u{200B}", 0, 1),
    ];
    for (text, wide, panel) in cases {
        assert_eq!(rt; text_width(&Wide, text), wide);
        assert_eq!(rt; text_width(&Panel, text), panel);
    }
}

// The first bad place, or where there is none the length of the text.
fn bad_place(part: &[u8], breaks: Breaks) -> usize {
    match check_text(part, breaks) {
        Ok(text) => text.len(),
        Err(fault) => fault.place,
    }
}

#[test]
fn checked_texts(rt: HostRuntime) {
    // The bytes, and the first bad place where breaks are refused and where they are allowed.
    let cases: [(&[u8], usize, usize); 27] = [
        (b"", 0, 0),
        (b"pier 4", 6, 6),
        (b"\xE6\xB8\xAF \xF0\x9F\x9A\xA2", 8, 8),
        (b"a\tb\nc", 1, 5),
        (b"a\rb", 1, 1),
        (b"ab\x1B[m", 2, 2),
        (b"\0", 0, 0),
        (b"~\x7F", 1, 1),
        (b"\xC2\x80", 0, 0),
        (b"a\xC2\x9F", 1, 1),
        (b"\xC2\xA0", 2, 2),
        // A tail alone, more bytes than needed, a surrogate, past the last code point, and no such byte.
        (b"a\x80", 1, 1),
        (b"\xC0\x80", 0, 0),
        (b"\xE0\x80\x80", 0, 0),
        (b"\xF0\x80\x80\x80", 0, 0),
        (b"ok\xED\xA0\x80", 2, 2),
        (b"\xF4\x90\x80\x80", 0, 0),
        (b"\xF5\x80\x80\x80", 0, 0),
        (b"\xFF", 0, 0),
        // Cut off within a character of two, three and four bytes.
        (b"ab\xC3", 2, 2),
        (b"\xE6\xB8", 0, 0),
        (b"a\xF0\x9F\x9A", 1, 1),
        // What comes first counts.
        (b"a\nb\xFF", 1, 3),
        (b"a\x07b\xFF", 1, 1),
        (b"a\xFFb\x07", 1, 1),
        (b"\xC3\xA9\xC2\x85", 2, 2),
        (b"\xC3\xA9\n\xC3", 2, 3),
    ];
    for (part, refused, allowed) in cases {
        assert_eq!(rt; bad_place(part, Breaks::Refused), refused);
        assert_eq!(rt; bad_place(part, Breaks::Allowed), allowed);
    }
}

#[test]
fn words_of_a_bad_text(rt: HostRuntime) {
    let words = BadText { place: 12 }.to_string(rt.alloc());
    let words = words.expect(&rt, "memory for the words");
    assert_eq!(rt; words.as_str(), "bad character at byte 12");
}

#[test]
fn first_characters(rt: HostRuntime) {
    let cases: [(&[u8], Option<char>); 9] = [
        (b"", None),
        (b"x\xFF", Some('x')),
        (b"\x07", Some('\u{7}')),
        (b"\xC3\xA9\x80", Some('é')),
        (b"\xE6\xB8\xAF", Some('港')),
        (b"\xF0\x9F\x9A\xA2 ferry", Some('🚢')),
        (b"\x80x", None),
        (b"\xED\xA0\x80", None),
        (b"\xE6\xB8", None),
    ];
    for (bytes, expected) in cases {
        assert_eq!(rt; first_char(bytes), expected);
    }
}

#[test]
fn control_characters(rt: HostRuntime) {
    let cases = [
        ('\0', true),
        ('\u{1F}', true),
        (' ', false),
        ('~', false),
        ('\u{7F}', true),
        ('\u{9F}', true),
        ('\u{A0}', false),
        ('\u{2028}', false),
    ];
    for (c, steers) in cases {
        assert_eq!(rt; is_control(c), steers);
    }
}
