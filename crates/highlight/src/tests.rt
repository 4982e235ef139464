//! Lines at the edges of every rule, and what each highlighter makes of them.
use super::*;
use std::alloc::{AllocError, Global};
use std::test::Fail;

// One letter for a kind.
fn letter(kind: Kind) -> &'static str {
    match kind {
        Kind::Comment => "c",
        Kind::Table => "t",
        Kind::String => "s",
        Kind::Digit => "d",
        Kind::Keyword => "k",
        Kind::Boolean => "o",
        Kind::Bare => "b",
        Kind::InForce => "f",
    }
}

// Each token as its kind's letter and its length.
fn shown(heap: Global, tokens: &Tokens) -> Result<String, AllocError> {
    let mut text = String::new(heap);
    for token in tokens.as_slice() {
        let one = format!(in heap; "{}{}", letter(token.kind), token.length)?;
        text.push_str(&one)?;
    }
    Ok(text)
}

// Lines behind the sign of where they begin, `.` outside of strings over lines and `+` inside, and behind the arrow
// the sign of where the next line begins, and the tokens.
const LINES: &str = r##"
. -> .
+ -> +
.a 1 -> .b1b1d1
./09: -> .b1d1d1b1
.é1€😀 -> .b2d1b3b4
.# "é" 1 -> .c8
.1#é -> .d1c3
."#"# -> .s3c1
."é"é -> .s4b2
."a -> .s2
." -> .s1
."" -> .s2
.""1 -> .s2d1
.""" -> +s3
."""" -> +s4
.""""" -> +s5
."""""" -> .s6
."""a""" -> .s7
."""a"""" -> .s7s1
."""a""""" -> .s7s2
.é"""#1 -> +b2s5
+# 1 "" é -> +s9
+é"""1 -> .s5d1
+""""1 -> .s3s2
+"""""" -> +s3s3
+a"""#""" -> .s4c4
"##;

// The mode that a row begins with, and what stands behind its sign.
fn mode_of(row: &str) -> (Mode, &str) {
    match row.strip_prefix('+') {
        Some(rest) => (Mode::Inside, rest),
        None => match row.strip_prefix('.') {
            Some(rest) => (Mode::Outside, rest),
            None => (Mode::Outside, row),
        },
    }
}

#[test]
fn toml_lines(rt: HostRuntime) -> Result<(), Fail> {
    let mut tokens = Tokens::new(rt.alloc())?;
    let mut rows = 0u64;
    for row in LINES.lines() {
        let Some((given, expected)) = row.split_once(" -> ") else {
            continue;
        };
        rows = rows.saturating_add(1);
        let (mut mode, line) = mode_of(given);
        let (behind, pieces) = mode_of(expected);
        assert!(rt;
            Toml.highlight(&mut mode, line, &mut tokens).is_ok(),
            "{}",
            row
        );
        assert_eq!(rt; shown(rt.alloc(), &tokens)?.as_str(), pieces, "{}", row);
        assert_eq!(rt; mode, behind, "{}", row);
    }
    assert_eq!(rt; rows, 26);
    Ok(())
}

#[test]
fn names(rt: HostRuntime) -> Result<(), Fail> {
    for (name, expected) in [
        ("toml", true),
        ("Toml", false),
        ("", false),
        ("tomls", false),
    ] {
        assert_eq!(rt; Toml.begin(name).is_some(), expected, "{}", name);
        assert!(rt; Plain.begin(name).is_some(), "{}", name);
    }
    for name in "comment table string digit keyword boolean".split(' ') {
        let kind = toml_style(name).ok_or("no kind")?;
        assert!(rt;
            kind == Kind::Boolean || name.starts_with(letter(kind)),
            "{}",
            name
        );
    }
    for name in ["bare", "Comment", "", "digits"] {
        assert!(rt; toml_style(name).is_none(), "{}", name);
    }
    Ok(())
}

#[test]
fn limits(rt: HostRuntime) -> Result<(), Fail> {
    let mut tokens = Tokens::new(rt.alloc())?;
    let mut line = String::new(rt.alloc());
    for _ in 0..4096 {
        line.push('1')?;
    }
    let mut mode = Mode::Outside;
    assert_eq!(rt; Toml.highlight(&mut mode, &line, &mut tokens), Ok(()));
    assert_eq!(rt; tokens.as_slice().len(), 4096);
    line.push('"')?;
    assert_eq!(rt;
        Toml.highlight(&mut mode, &line, &mut tokens),
        Err(LongLine)
    );
    assert_eq!(rt; Plain.highlight(&mut (), &line, &mut tokens), Err(LongLine));
    assert_eq!(rt; mode, Mode::Outside);
    let one_more = Token {
        kind: Kind::Digit,
        length: 1,
    };
    assert!(rt; tokens.push(one_more).is_err());
    assert_eq!(rt; tokens.as_slice().len(), 4096);
    assert_eq!(rt; Plain.highlight(&mut (), "é", &mut tokens), Ok(()));
    assert_eq!(rt; shown(rt.alloc(), &tokens)?.as_str(), "f2");
    assert_eq!(rt; Plain.highlight(&mut (), "", &mut tokens), Ok(()));
    assert_eq!(rt; tokens.as_slice().len(), 0);
    Ok(())
}
