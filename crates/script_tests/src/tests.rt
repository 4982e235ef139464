//! Every form of a string, and every kind of line that is refused.
use script::{read_script, read_string, write_string};
use std::alloc::Global;
use std::test::Fail;

// Strings as they are read, and behind the arrow as they are printed again; the last ones are no strings:
// not closed, not apart, a bad escape, a bad number, no quote, and more than 16 MiB.
const STRINGS: &str = r#"
 -> ""
  "a b"   -> "a b"
"a" "b"   "" "c" -> "abc"
"ab"*3 "c"*1 "d"*0 "e" -> "abababce"
"a"*0002 -> "aa"
""*4294967295 -> ""
"\n\t\\\"" -> "\n\t\\\""
"\x41\x7a\x7A" -> "Azz"
"\x00\x1f\x7f \xc2\x80\xc2\x9f" -> "\x00\x1F\x7F \xC2\x80\xC2\x9F"
"é€🙂" -> "é€🙂"
"\xc3\xa9 \xc3 \xa9 \xed\xa0\x80 \xff" -> "é \xC3 \xA9 \xED\xA0\x80 \xFF"
" -> no string
"a\" -> no string
"a""b" -> no string
"a"b -> no string
"\q" -> no string
"\x4" -> no string
"\xg0" -> no string
"a"* -> no string
"a"* 2 -> no string
"a"*2"b" -> no string
"a"*4294967296 -> no string
"a" b -> no string
"a"*16777217 -> no string
"a" "b"*16777216 -> no string
"#;

// Scripts, with a bar for each line's end, and behind the arrow how many steps they have or why they are refused.
const SCRIPTS: &str = r#"
 -> 0 steps
|  |% note|   % base "a| -> 0 steps
base "a"|  directory "b" "c"  ||resolve 0 "d" -> 3 steps
base|directory|resolve 4294967295| -> 3 steps
base "a"||width 80 -> line 3: read "width", expected base STRING, directory STRING or resolve ROOM STRING
repeat 2 resolve 0 -> line 1: read "repeat", expected base STRING, directory STRING or resolve ROOM STRING
base"a" -> line 1: read "base\"a\"", expected base STRING, directory STRING or resolve ROOM STRING
Base -> line 1: read "Base", expected base STRING, directory STRING or resolve ROOM STRING
resolve -> line 1: read nothing, expected a number from 0 to 4294967295
%|resolve "a" -> line 2: read "\"a\"", expected a number from 0 to 4294967295
resolve 4294967296 -> line 1: read "4294967296", expected a number from 0 to 4294967295
resolve -1 -> line 1: read "-1", expected a number from 0 to 4294967295
resolve 7  a b -> line 1: read "a b", expected strings, as ".." or ".."*N, where *N makes at most 16777216 bytes
directory "a|base -> line 1: read "\"a", expected strings, as ".." or ".."*N, where *N makes at most 16777216 bytes
"#;

// What a text of strings reads as, printed again; `no string` where it is none.
fn read_and_printed(heap: Global, text: &str) -> Result<String, Fail> {
    let mut out = Vec::new(heap);
    match read_string(heap, text.as_bytes())? {
        Some(bytes) => write_string(&mut out, &bytes)?,
        None => out.extend_from_slice(b"no string")?,
    }
    Ok(String::from_utf8_lossy(heap, &out)?)
}

// How many steps a script has, or why it is refused.
fn outcome(heap: Global, script: &str) -> Result<String, Fail> {
    let text = script.replace(heap, "|", "\n")?;
    match read_script(heap, text.as_bytes()) {
        Ok(steps) => {
            let count = steps.len();
            Ok(format!(in heap; "{count} steps")?)
        }
        Err(error) => Ok(format!(in heap; "{error}")?),
    }
}

#[test]
fn strings_read_and_printed(rt: HostRuntime) -> Result<(), Fail> {
    for row in STRINGS.lines() {
        if let Some((text, printed)) = row.split_once(" -> ") {
            let read = read_and_printed(rt.alloc(), text)?;
            assert_eq!(rt; read.as_str(), printed, "{}", text);
        }
    }
    Ok(())
}

#[test]
fn scripts_read_or_refused(rt: HostRuntime) -> Result<(), Fail> {
    for row in SCRIPTS.lines() {
        if let Some((script, expected)) = row.split_once(" -> ") {
            let said = outcome(rt.alloc(), script)?;
            assert_eq!(rt; said.as_str(), expected, "{}", script);
        }
    }
    Ok(())
}
