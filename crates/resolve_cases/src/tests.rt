//! The tables, and what runs them.
use address::{HostAnswer, Layer, ResolveFault, berth_resolve, percent_form, resolve, rewrite_url};
use std::process::Abort;
use std::test::Fail;

// An address as written, and what it resolves to.
type Row = (&'static str, &'static str);

// RFC 3986, section 5.4, from `http://a` and `b/c`: 36 of its 42 examples. The empty address and `#s` have no link here, `?y`
// names no document of the base, and `../../../g`, `../../../../g` and `/../g` leave the site (below).
const RFC_3986: [Row; 36] = [
    ("g:h", "g:h"),
    ("g", "http://a/b/c/g"),
    ("./g", "http://a/b/c/g"),
    ("g/", "http://a/b/c/g/"),
    ("/g", "http://a/g"),
    ("//g", "http://g"),
    ("g?y", "http://a/b/c/g?y"),
    ("g#s", "http://a/b/c/g#s"),
    ("g?y#s", "http://a/b/c/g?y#s"),
    (";x", "http://a/b/c/;x"),
    ("g;x", "http://a/b/c/g;x"),
    ("g;x?y#s", "http://a/b/c/g;x?y#s"),
    (".", "http://a/b/c/"),
    ("./", "http://a/b/c/"),
    ("..", "http://a/b/"),
    ("../", "http://a/b/"),
    ("../g", "http://a/b/g"),
    ("../..", "http://a/"),
    ("../../", "http://a/"),
    ("../../g", "http://a/g"),
    ("/./g", "http://a/g"),
    ("g.", "http://a/b/c/g."),
    (".g", "http://a/b/c/.g"),
    ("g..", "http://a/b/c/g.."),
    ("..g", "http://a/b/c/..g"),
    ("./../g", "http://a/b/g"),
    ("./g/.", "http://a/b/c/g/"),
    ("g/./h", "http://a/b/c/g/h"),
    ("g/../h", "http://a/b/c/h"),
    ("g;x=1/./y", "http://a/b/c/g;x=1/y"),
    ("g;x=1/../y", "http://a/b/c/y"),
    ("g?y/./x", "http://a/b/c/g?y/./x"),
    ("g?y/../x", "http://a/b/c/g?y/../x"),
    ("g#s/./x", "http://a/b/c/g#s/./x"),
    ("g#s/../x", "http://a/b/c/g#s/../x"),
    ("http:g", "http:g"),
];

// The rules, from `https://nexte.st` and `docs/a`.
const RULES: [Row; 27] = [
    ("x.md#y", "https://nexte.st/docs/a/x/#y"),
    ("mailto:a@b", "mailto:a@b"),
    ("/x.md?q", "https://nexte.st/x/?q"),
    ("HTTPS://h/x.md", "HTTPS://h/x.md"),
    ("x.md:y", "x.md:y"),
    ("1a:b", "https://nexte.st/docs/a/1a:b"),
    ("a/b:c", "https://nexte.st/docs/a/a/b:c"),
    ("//h/x.md", "https://h/x.md"),
    ("?q", "https://nexte.st/docs/a/?q"),
    ("?q#f", "https://nexte.st/docs/a/?q#f"),
    ("/", "https://nexte.st/"),
    ("../..", "https://nexte.st/"),
    ("../../?q#f", "https://nexte.st/?q#f"),
    ("index.md", "https://nexte.st/docs/a/"),
    ("x/index.md#y", "https://nexte.st/docs/a/x/#y"),
    ("index.md/x", "https://nexte.st/docs/a/index.md/x"),
    ("index.md.md", "https://nexte.st/docs/a/index.md/"),
    ("x.md.md", "https://nexte.st/docs/a/x.md/"),
    ("x.md/y.md", "https://nexte.st/docs/a/x.md/y/"),
    (".md", "https://nexte.st/docs/a//"),
    ("x.MD", "https://nexte.st/docs/a/x.MD"),
    ("x.mdx", "https://nexte.st/docs/a/x.mdx"),
    ("x//y///", "https://nexte.st/docs/a/x/y/"),
    ("./././x", "https://nexte.st/docs/a/x"),
    ("x/../../y", "https://nexte.st/docs/y"),
    ("é.md?ü#ß", "https://nexte.st/docs/a/é/?ü#ß"),
    ("x.md?a#b#c?d", "https://nexte.st/docs/a/x/?a#b#c?d"),
];

// What is written, or the bytes of a text that no address is.
fn resolved<'a>(url: &str, base: &str, directory: &str, out: &'a mut [u8]) -> &'a [u8] {
    match resolve(url.as_bytes(), base.as_bytes(), directory.as_bytes(), out) {
        Ok(Some(length)) => match out.get(0..length) {
            Some(bytes) => bytes,
            None => b"beyond the output",
        },
        Ok(None) => b"none",
        Err(_) => b"refused",
    }
}

fn check_rows(rt: &impl Abort, rows: &[Row], base: &str, directory: &str) {
    for (url, expected) in rows {
        let mut out = [0u8; 512];
        assert_eq!(rt;
            resolved(url, base, directory, &mut out),
            expected.as_bytes(),
            "{}",
            url
        );
    }
}

#[test]
fn rfc_3986_examples(rt: HostRuntime) {
    check_rows(&rt, &RFC_3986, "http://a", "b/c");
}

#[test]
fn rules(rt: HostRuntime) {
    check_rows(&rt, &RULES, "https://nexte.st", "docs/a");
}

// An address, a base and a directory that are refused, and with what.
type Refused = (&'static [u8], &'static [u8], &'static [u8], ResolveFault);

const SITE: &[u8] = b"https://nexte.st";

const REFUSED: [Refused; 19] = [
    (b"../../../g", b"http://a", b"b/c", ResolveFault::Site),
    (b"../../../../g", b"http://a", b"b/c", ResolveFault::Site),
    (b"/../g", b"http://a", b"b/c", ResolveFault::Site),
    (b"../../x", SITE, b"docs", ResolveFault::Site),
    (b"..", SITE, b"", ResolveFault::Site),
    (b"/..", SITE, b"docs/a", ResolveFault::Site),
    (b"../../../a/b/c", SITE, b"docs/a", ResolveFault::Site),
    (b"a/../../b", SITE, b"//", ResolveFault::Site),
    (b"a\nb", SITE, b"docs", ResolveFault::Text(1)),
    (b"a\tb", SITE, b"docs", ResolveFault::Text(1)),
    (b"ab\x7f", SITE, b"docs", ResolveFault::Text(2)),
    (b"a\xc2\x85", SITE, b"docs", ResolveFault::Text(1)),
    (b"\xe2\x82", SITE, b"docs", ResolveFault::Text(0)),
    (b"http://h/\xff", b"\xff", b"\xff", ResolveFault::Text(9)),
    (b"x", b"abc\x1b", b"\xff", ResolveFault::Text(3)),
    (b"x", SITE, b"docs/\xc0\x80", ResolveFault::Text(5)),
    (b"#x", b"abc\x1b", b"docs", ResolveFault::Text(3)),
    (b"mailto:a@b", SITE, b"\x80", ResolveFault::Text(0)),
    (b"\xff/../..", SITE, b"", ResolveFault::Text(0)),
];

#[test]
fn refusals(rt: HostRuntime) {
    for (url, base, directory, expected) in REFUSED {
        let mut out = [0xaau8; 64];
        assert_eq!(rt; resolve(url, base, directory, &mut out), Err(expected));
        assert_eq!(rt; out, [0xaau8; 64]);
        let mut told = UNTOLD;
        berth_resolve(url, base, directory, &mut out, &mut told);
        assert_eq!(rt; told.number, u32::from(expected.number()));
        assert_eq!(rt; told.layer, 1);
        assert_eq!(rt; told.place, expected.place() as u64);
        assert_eq!(rt; expected.layer(), Layer::Page);
    }
}

#[test]
fn numbers_and_places(rt: HostRuntime) {
    assert_eq!(rt; ResolveFault::Text(9).number(), 4);
    assert_eq!(rt; ResolveFault::Text(9).place(), 9);
    assert_eq!(rt; ResolveFault::Site.number(), 7);
    assert_eq!(rt; ResolveFault::Address.number(), 8);
    assert_eq!(rt; ResolveFault::Output.number(), 13);
    assert_eq!(rt; ResolveFault::Output.place(), 0);
}

// What a host's answer holds before the call.
const UNTOLD: HostAnswer = HostAnswer {
    number: 99,
    layer: 99,
    events: 99,
    place: 99,
    linked: 99,
    length: 99,
};

// A text so many times, and another behind it.
fn repeated(rt: &HostRuntime, text: &str, times: usize, end: &str) -> Result<String, Fail> {
    let mut all = String::new(rt.alloc());
    for _ in 0..times {
        all.push_str(text)?;
    }
    all.push_str(end)?;
    Ok(all)
}

fn outcome(url: &str, base: &str, directory: &str) -> Result<Option<usize>, ResolveFault> {
    let mut out = [0u8; 512];
    resolve(
        url.as_bytes(),
        base.as_bytes(),
        directory.as_bytes(),
        &mut out,
    )
}

#[test]
fn longest_base(rt: HostRuntime) -> Result<(), Fail> {
    let last = repeated(&rt, "b", 128, "")?;
    let next = repeated(&rt, "b", 129, "")?;
    assert_eq!(rt; outcome("x", last.as_str(), ""), Ok(Some(130)));
    assert_eq!(rt; outcome("#x", last.as_str(), ""), Ok(None));
    for url in ["x", "#x", "", "mailto:a@b", "//h"] {
        assert_eq!(rt;
            outcome(url, next.as_str(), ""),
            Err(ResolveFault::Address),
            "{}",
            url
        );
    }
    assert_eq!(rt; outcome("..", next.as_str(), ""), Err(ResolveFault::Site));
    Ok(())
}

#[test]
fn longest_address(rt: HostRuntime) -> Result<(), Fail> {
    let plain = repeated(&rt, "x", 503, "")?;
    assert_eq!(rt; outcome(plain.as_str(), "http://a", ""), Ok(Some(512)));
    let longer = repeated(&rt, "x", 504, "")?;
    assert_eq!(rt;
        outcome(longer.as_str(), "http://a", ""),
        Err(ResolveFault::Address)
    );
    let percent = repeated(&rt, "é", 83, "abcde")?;
    assert_eq!(rt; outcome(percent.as_str(), "http://a", ""), Ok(Some(180)));
    let more = repeated(&rt, "é", 83, "abcdef")?;
    assert_eq!(rt;
        outcome(more.as_str(), "http://a", ""),
        Err(ResolveFault::Address)
    );
    let scheme = repeated(&rt, "x", 511, ":")?;
    assert_eq!(rt; outcome(scheme.as_str(), "", ""), Ok(Some(512)));
    let over = repeated(&rt, "x", 512, ":")?;
    assert_eq!(rt; outcome(over.as_str(), "", ""), Err(ResolveFault::Address));
    Ok(())
}

#[test]
fn thousands_of_parts(rt: HostRuntime) -> Result<(), Fail> {
    let directory = repeated(&rt, "part/", 5000, "")?;
    let up = repeated(&rt, "../", 5000, "x")?;
    assert_eq!(rt;
        outcome(up.as_str(), "http://a", directory.as_str()),
        Ok(Some(10))
    );
    let out_of_it = repeated(&rt, "../", 5001, "x")?;
    assert_eq!(rt;
        outcome(out_of_it.as_str(), "http://a", directory.as_str()),
        Err(ResolveFault::Site)
    );
    let to_and_fro = repeated(&rt, "a/b/../../", 5000, "x.md")?;
    assert_eq!(rt; outcome(to_and_fro.as_str(), "http://a", ""), Ok(Some(11)));
    Ok(())
}

#[test]
fn lent_output(rt: HostRuntime) {
    let url = b"x.md#y";
    let mut full = [0xaau8; 28];
    assert_eq!(rt; resolve(url, SITE, b"docs/a", &mut full), Ok(Some(28)));
    assert_eq!(rt; &full[0..28], b"https://nexte.st/docs/a/x/#y".as_slice());
    let mut short = [0xaau8; 27];
    assert_eq!(rt;
        resolve(url, SITE, b"docs/a", &mut short),
        Err(ResolveFault::Output)
    );
    assert_eq!(rt; short, [0xaau8; 27]);
    let mut roomy = [0xaau8; 30];
    assert_eq!(rt; resolve(url, SITE, b"docs/a", &mut roomy), Ok(Some(28)));
    assert_eq!(rt; &roomy[24..30], b"x/#y\xaa\xaa".as_slice());
    let mut none = [0u8; 0];
    assert_eq!(rt; resolve(b"#x", SITE, b"docs/a", &mut none), Ok(None));
    assert_eq!(rt;
        resolve(b"x", b"", b"", &mut none),
        Err(ResolveFault::Output)
    );
}

#[test]
fn host_in_c(rt: HostRuntime) {
    let mut out = [0u8; 64];
    let mut told = UNTOLD;
    berth_resolve(b"x.md#y", SITE, b"docs/a", &mut out, &mut told);
    assert_eq!(rt; (told.number, told.layer, told.linked), (0, 0, 1));
    assert_eq!(rt; (told.events, told.place, told.length), (0, 0, 28));
    assert_eq!(rt; &out[0..28], b"https://nexte.st/docs/a/x/#y".as_slice());
    berth_resolve(b"#y", SITE, b"docs/a", &mut out, &mut told);
    assert_eq!(rt; (told.number, told.linked, told.length), (0, 0, 0));
}

#[test]
fn rewritten_address(rt: HostRuntime) -> Result<(), Fail> {
    let answer = rewrite_url("x.md", "http://a", "b")?;
    match answer {
        Some(address) => {
            assert_eq!(rt; address.as_bytes(), b"http://a/b/x/".as_slice());
            Ok(())
        },
        None => Err(Fail::new("no address")),
    }
}

#[test]
fn percent_forms(rt: HostRuntime) {
    let rows: [(&[u8], &[u8]); 5] = [
        (b"", b""),
        (b" a~%41", b" a~%41"),
        (b"\x1f\x7f", b"%1F%7F"),
        ("é".as_bytes(), b"%C3%A9"),
        (b"\x00\xff", b"%00%FF"),
    ];
    for (address, expected) in rows {
        let mut out = [0xaau8; 8];
        assert_eq!(rt; percent_form(address, &mut out), Some(expected.len()));
        assert_eq!(rt; out.get(0..expected.len()), Some(expected));
    }
    let mut short = [0xaau8; 5];
    assert_eq!(rt; percent_form("é".as_bytes(), &mut short), None);
    assert_eq!(rt; short, [0xaau8; 5]);
}
