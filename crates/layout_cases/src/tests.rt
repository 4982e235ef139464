//! What is open, what is kept, and how words flow onto rows.
use board::{Board, Grid};
use chars::Wide;
use events::{Element, Elements, ListFrame, ListStack, next_marker};
use line::{Format, LineWriter, Marker, Segment, Tables};
use links::AddressTable;
use paint::LinkTarget;
use std::process::Abort;
use std::test::Fail;
use style::{Style, StyleStack, put_on};

#[test]
fn open_elements(rt: HostRuntime) -> Result<(), Fail> {
    let mut elements = Elements::new(rt.alloc())?;
    for _ in 0..32 {
        assert!(rt; elements.push(Element::Quote).is_ok());
    }
    assert!(rt; elements.push(Element::Quote).is_err());
    assert_eq!(rt; elements.as_slice().len(), 32);
    assert!(rt; matches!(elements.pop(), Some(Element::Quote)));
    assert_eq!(rt; elements.as_slice().len(), 31);
    Ok(())
}

#[test]
fn numbered_items(rt: HostRuntime) -> Result<(), Fail> {
    let mut lists = ListStack::new(rt.alloc())?;
    assert!(rt; next_marker(&mut lists).is_none());
    assert!(rt; lists.push(ListFrame { ordinal: Some(9) }).is_ok());
    for expected in [9, 10, 11] {
        let ordinal = next_marker(&mut lists).and_then(|frame| frame.ordinal);
        assert_eq!(rt; ordinal, Some(expected));
    }
    assert!(rt; lists.pop().is_some());
    assert!(rt; lists.pop().is_none());
    for _ in 0..32 {
        assert!(rt; lists.push(ListFrame { ordinal: None }).is_ok());
    }
    assert!(rt; lists.push(ListFrame { ordinal: None }).is_err());
    assert_eq!(rt; lists.as_slice().len(), 32);
    Ok(())
}

#[test]
fn addresses(rt: HostRuntime) -> Result<(), Fail> {
    let mut table = AddressTable::new(rt.alloc())?;
    for (address, place) in [("http://a/x/", 0), ("http://a/y/", 1), ("http://a/x/", 0)] {
        assert!(rt; matches!(table.intern(address.as_bytes()), Ok(n) if n == place));
    }
    assert_eq!(rt; table.len(), 2);
    assert_eq!(rt; table.get(1), b"http://a/y/".as_slice());
    assert_eq!(rt; table.get(2), b"".as_slice());
    Ok(())
}

#[test]
fn styles_in_force(rt: HostRuntime) -> Result<(), Fail> {
    let mut styles = StyleStack::new(rt.alloc())?;
    for _ in 0..64 {
        assert!(rt; put_on(&mut styles, Style::Strong).is_ok());
    }
    assert!(rt; put_on(&mut styles, Style::Emphasis).is_err());
    assert!(rt; styles.push(Style::Emphasis).is_err());
    assert_eq!(rt; styles.as_slice().len(), 64);
    assert_eq!(rt; styles.pop(), Some(Style::Strong));
    assert_eq!(rt; styles.as_slice().len(), 63);
    Ok(())
}

// The words, a break between each two, on a page so wide.
fn lay(rt: &HostRuntime, width: usize, words: &[&str], style: Option<Style>) -> Result<Grid, Fail> {
    let format = Format {
        width,
        color: true,
        hyperlinks: true,
    };
    let addresses = AddressTable::new(rt.alloc())?;
    let tables = Tables {
        chars: &Wide,
        addresses: &addresses,
    };
    let mut writer = LineWriter::new(rt.alloc(), format)?;
    let mut board = Grid::new();
    if let Some(style) = style {
        writer.push_style(style);
    }
    for (place, word) in words.iter().enumerate() {
        if place > 0 && writer.add_space(&tables, &mut board).is_err() {
            return Err(Fail::new("a space was refused"));
        }
        if writer.add_segment(&Wide, word).is_err() {
            return Err(Fail::new("a word was refused"));
        }
    }
    match writer.hard_break(&tables, &mut board) {
        Ok(()) => Ok(board),
        Err(_fault) => Err(Fail::new("a row was refused")),
    }
}

// The board's rows are these.
fn check_rows<B: Board>(rt: &impl Abort, board: &B, expected: &[&str]) {
    assert_eq!(rt; board.count(), expected.len());
    for (row, text) in expected.iter().enumerate() {
        assert_eq!(rt; board.length(row), Some(text.len()));
        for (place, byte) in text.bytes().enumerate() {
            assert_eq!(rt; board.byte(row, place), Some(byte));
        }
    }
}

#[test]
fn words_on_rows(rt: HostRuntime) -> Result<(), Fail> {
    check_rows(
        &rt,
        &lay(&rt, 10, &["aaa", "bbb", "ccc"], None)?,
        &["aaa bbb", "ccc"],
    );
    check_rows(
        &rt,
        &lay(&rt, 11, &["aaa", "bbb", "ccc"], None)?,
        &["aaa bbb ccc"],
    );
    check_rows(&rt, &lay(&rt, 0, &["a", "b"], None)?, &["a", "b"]);
    check_rows(&rt, &lay(&rt, 80, &[], None)?, &[]);
    check_rows(
        &rt,
        &lay(&rt, 80, &["b"], Some(Style::Strong))?,
        &["\x1b[1mb\x1b[0m"],
    );
    Ok(())
}

// Two blocks of a word each, in a quote or not.
fn lay_blocks(rt: &HostRuntime, quoted: bool) -> Result<Grid, Fail> {
    let format = Format {
        width: 80,
        color: false,
        hyperlinks: false,
    };
    let addresses = AddressTable::new(rt.alloc())?;
    let tables = Tables {
        chars: &Wide,
        addresses: &addresses,
    };
    let mut writer = LineWriter::new(rt.alloc(), format)?;
    let mut board = Grid::new();
    if quoted {
        writer.push_prefix(Segment::Quote);
    }
    for word in ["a", "b"] {
        let added = writer.add_segment(&Wide, word).is_ok();
        let laid = writer.flush_word(&tables, &mut board).is_ok();
        let ended = writer.end_block(&mut board).is_ok();
        if !(added && laid && ended) {
            return Err(Fail::new("a block was refused"));
        }
    }
    Ok(board)
}

#[test]
fn blocks_on_rows(rt: HostRuntime) -> Result<(), Fail> {
    check_rows(&rt, &lay_blocks(&rt, false)?, &["a", "", "b"]);
    let quoted = lay_blocks(&rt, true)?;
    check_rows(&rt, &quoted, &["│ a", "│", "│ b"]);
    for (row, margin) in [(0, 4), (1, 3), (2, 4)] {
        assert_eq!(rt; quoted.margin(row), Some(margin));
    }
    Ok(())
}

#[test]
fn a_link_on_a_row(rt: HostRuntime) -> Result<(), Fail> {
    let format = Format {
        width: 80,
        color: false,
        hyperlinks: true,
    };
    let mut addresses = AddressTable::new(rt.alloc())?;
    let Ok(place) = addresses.intern(b"http://a/x/") else {
        return Err(Fail::new("an address was refused"));
    };
    let tables = Tables {
        chars: &Wide,
        addresses: &addresses,
    };
    let mut writer = LineWriter::new(rt.alloc(), format)?;
    let mut board = Grid::new();
    writer.set_link(LinkTarget::Linked(place));
    assert!(rt; writer.add_segment(&Wide, "ramp").is_ok());
    assert!(rt; writer.hard_break(&tables, &mut board).is_ok());
    check_rows(
        &rt,
        &board,
        &["\x1b]8;;http://a/x/\x1b\\ramp\x1b]8;;\x1b\\"],
    );
    Ok(())
}

#[test]
fn markers(rt: HostRuntime) {
    for (marker, text, columns) in [
        (Marker::Bullet, "- ", 2),
        (Marker::Number(7), "7. ", 3),
        (Marker::Number(u64::MAX), "18446744073709551615. ", 22),
    ] {
        assert_eq!(rt; marker.text().as_str(), text);
        assert_eq!(rt; marker.width(&Wide), columns);
    }
}
