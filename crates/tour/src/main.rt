//! A tour of boards, highlighters and styles, written once for any board and any highlighter; each step is printed.
#![tactic(auto)]

use board::{Board, Grid, Row, Sheet, bytes_len};
use highlight::{Highlighter, Kind, Plain, Tokens, Toml};
use std::io;
use style::{Style, switch};

/// A block of TOML, with a string over two lines.
const BLOCK: [&str; 5] = [
    "[ramp.2] # east side",
    "depth = 34",
    "note = \"\"\"keep clear",
    "of the slip\"\"\" # 2 m",
    "",
];

/// Puts rows of these bytes until one is refused, at most 1,000, and answers how many were taken.
fn fill<B: Board>(board: &mut B, bytes: &[u8]) -> usize {
    (0..1000)
        .take_while(|_| board.put(Row::new(2, bytes)).is_ok())
        .count()
}

/// Says what a board holds.
fn report<B: Board>(rt: &HostRuntime, name: &str, taken: usize, board: &B) -> io::Result<()> {
    let rows = board.count();
    let bytes = bytes_len(board);
    println!(rt; "{name}: {taken} rows taken, {rows} held, {bytes} bytes")
}

/// Fills a board, cuts it back and fills it again.
fn tour_board<B: Board>(rt: &HostRuntime, name: &str, board: &mut B) -> io::Result<()> {
    let taken = fill(board, b"| ramp 2");
    report(rt, name, taken, board)?;
    board.cut(3);
    report(rt, name, 0, board)?;
    let taken = fill(board, b"| keep clear of the slip");
    report(rt, name, taken, board)
}

/// The style of a kind of token, if it has one of its own.
fn style_of(kind: Kind) -> Option<Style> {
    match kind {
        Kind::Comment => Some(Style::Comment),
        Kind::Table => Some(Style::Table),
        Kind::String => Some(Style::Text),
        Kind::Digit | Kind::Keyword | Kind::Boolean => Some(Style::Number),
        Kind::Bare | Kind::InForce => None,
    }
}

/// Says what a line falls into: each token's kind and length, and how long the switch of its style is.
fn report_tokens(rt: &HostRuntime, tokens: &Tokens) -> io::Result<()> {
    for token in tokens.as_slice() {
        let kind = token.kind;
        let length = token.length;
        let switched = style_of(kind).map_or(0, |style| switch(style).len());
        print!(rt; " {kind:?} {length}/{switched}")?;
    }
    println!(rt; "")
}

/// Takes the block through a highlighter, line by line.
fn tour_highlighter<H: Highlighter>(
    rt: &HostRuntime,
    name: &str,
    highlighter: &H,
    tokens: &mut Tokens,
) -> io::Result<()> {
    let Some(mut state) = highlighter.begin("toml") else {
        return println!(rt; "{name}: does not take toml");
    };
    for line in BLOCK {
        if highlighter.highlight(&mut state, line, tokens).is_ok() {
            print!(rt; "{name}:")?;
            report_tokens(rt, tokens)?;
        }
    }
    Ok(())
}

fn main(rt: HostRuntime) -> io::Result<()> {
    tour_board(&rt, "sheet", &mut Sheet::new(rt.alloc(), 20, 256)?)?;
    tour_board(&rt, "grid", &mut Grid::new())?;
    let mut tokens = Tokens::new(rt.alloc())?;
    tour_highlighter(&rt, "plain", &Plain, &mut tokens)?;
    tour_highlighter(&rt, "toml", &Toml, &mut tokens)
}
