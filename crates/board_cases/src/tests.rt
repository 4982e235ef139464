//! What fits, what is held, and what is refused.
use board::{Board, BoardFault, Change, Grid, Row, Sheet, apply, byte_at, bytes_len};
use std::process::Abort;
use std::test::Fail;

// The board's bytes are these, each at its place, and none follows.
fn check_bytes<B: Board>(rt: &impl Abort, board: &B, expected: &[u8]) {
    assert_eq!(rt; bytes_len(board), expected.len());
    for (place, byte) in expected.iter().enumerate() {
        assert_eq!(rt; byte_at(board, place), Some(*byte));
    }
    assert_eq!(rt; byte_at(board, expected.len()), None);
}

// Puts a row of the bytes so many times, and says how many were refused.
fn refused<B: Board>(board: &mut B, bytes: &[u8], times: u32) -> u32 {
    let mut refused: u32 = 0;
    for _ in 0..times {
        if board.put(Row::new(2, bytes)).is_err() {
            refused = refused.saturating_add(1);
        }
    }
    refused
}

#[test]
fn rows(rt: HostRuntime) {
    let row = Row::new(2, b"| ab");
    assert_eq!(rt; row.margin(), 2);
    assert_eq!(rt; row.bytes(), b"| ab".as_slice());
    let cut = Row::new(9, b"| \nab");
    assert_eq!(rt; cut.margin(), 2);
    assert_eq!(rt; cut.bytes(), b"| ".as_slice());
}

// A grid of 64 rows of 256 bytes, and how many rows it refused on the way: one of 257 bytes, and the 65th.
fn full_grid() -> (Grid, u32) {
    let mut grid = Grid::new();
    let long = [b'x'; 257];
    let mut no = refused(&mut grid, &long, 1);
    no = no.saturating_add(refused(&mut grid, &long[0..256], 64));
    no = no.saturating_add(refused(&mut grid, b"", 1));
    (grid, no)
}

#[test]
fn grid_edges(rt: HostRuntime) {
    let (mut grid, no) = full_grid();
    assert_eq!(rt; (grid.count(), no), (64, 2));
    assert!(rt; !grid.has_room(0));
    assert_eq!(rt; bytes_len(&grid), 64 * 257);
    assert_eq!(rt; (grid.margin(63), grid.length(63)), (Some(2), Some(256)));
    assert_eq!(rt; (grid.margin(64), grid.length(64)), (None, None));
    assert_eq!(rt;
        (grid.byte(63, 255), grid.byte(63, 256)),
        (Some(b'x'), None)
    );
    grid.cut(63);
    assert!(rt; grid.has_room(256) && !grid.has_room(257));
    assert_eq!(rt; grid.put(Row::new(0, b"y")), Ok(()));
    assert_eq!(rt; (grid.length(63), grid.byte(63, 0)), (Some(1), Some(b'y')));
}

#[test]
fn sheet_edges(rt: HostRuntime) -> Result<(), Fail> {
    let mut sheet = Sheet::new(rt.alloc(), 3, 8)?;
    assert_eq!(rt; sheet.put(Row::new(0, b"abcdefgh")), Err(BoardFault));
    assert_eq!(rt; sheet.put(Row::new(1, b"abcdefg")), Ok(()));
    assert_eq!(rt; sheet.put(Row::new(0, b"")), Err(BoardFault));
    check_bytes(&rt, &sheet, b"abcdefg\n");
    sheet.cut(0);
    check_bytes(&rt, &sheet, b"");
    assert!(rt; sheet.has_room(7) && !sheet.has_room(8));
    assert_eq!(rt; refused(&mut sheet, b"a", 4), 1);
    check_bytes(&rt, &sheet, b"a\na\na\n");
    sheet.cut(1);
    assert_eq!(rt; sheet.put(Row::new(2, b"| bc")), Ok(()));
    check_bytes(&rt, &sheet, b"a\n| bc\n");
    assert_eq!(rt;
        (sheet.count(), sheet.margin(1), sheet.byte(1, 3)),
        (2, Some(2), Some(b'c'))
    );
    sheet.cut(9);
    assert_eq!(rt; sheet.count(), 2);
    Ok(())
}

#[test]
fn histories(rt: HostRuntime) -> Result<(), Fail> {
    let put = Change::Put {
        margin: 0,
        bytes: b"ab",
    };
    let cut = Change::Cut(1);
    let mut sheet = Sheet::new(rt.alloc(), 4, 9)?;
    apply(&mut sheet, &[put, put, put, put, cut, put]);
    check_bytes(&rt, &sheet, b"ab\nab\n");
    let mut grid = Grid::new();
    apply(&mut grid, &[put, put, put, put]);
    check_bytes(&rt, &grid, b"ab\nab\nab\nab\n");
    Ok(())
}
