//! One line of a script.
ghost use Rattle.std.specs.Prelude.{◌≡◌, MatchOption, MatchResult, Some, None, IfOk, IfErr};
ghost use Rattle.script.specs.declared.lines.LineError.TheVariants.{Memory};
ghost use Rattle.script.specs.declared.fault.Expected.TheVariants.{Call, Strings};
ghost use Rattle.script.specs.Lines.{order_of, meaning_of, asks, refused, with_room, named, bare, line_of, Misses, Refuses};
ghost use Rattle.script.specs.Number.{number_of};
ghost use Rattle.script.specs.Strings.{string_of};
ghost use Rattle.script.specs.Words.{trimmed_start, first_word};

use crate::command::Command;
use crate::fault::Expected;
use crate::numbers::read_number;
use crate::strings::read_string;
use crate::words::{split_word, trim, trim_start};
use std::alloc::{AllocError, Global};

/// Why a line asks for nothing: for want of memory, or refused, with what was read and what was expected there.
#[derive(Drop)]
pub enum LineError {
    Memory,
    Refused { read: Vec<u8>, expected: Expected },
}

impl From<AllocError> for LineError {
    ghost from_gives = { λ _ r. r ≡ Memory };

    fn from(_e: AllocError) -> LineError {
        LineError::Memory
    }
}

/// A line is refused, where this was read in the place of what was expected.
fn refusal(heap: Global, read: &[u8], expected: Expected) -> LineError
    ensures { Refuses result (refused read.now expected) }
{
    match Vec::from_slice(heap, read) {
        Ok(read) => LineError::Refused { read, expected },
        Err(_no_memory) => LineError::Memory,
    }
}

/// The rest of a line: strings.
fn read_strings(heap: Global, rest: &[u8]) -> Result<Vec<u8>, LineError>
    ensures strings { IfOk result (λ s. string_of rest.now ≡ Some s.items) }
    ensures refused { IfErr result (λ e. Misses e (string_of rest.now) (trimmed_start rest.now) Strings) }
{
    match read_string(heap, rest)? {
        Some(string) => Ok(string),
        None => Err(refusal(heap, trim_start(rest), Expected::Strings)),
    }
}

/// The rest of a resolve line: room and strings.
fn read_resolve(heap: Global, rest: &[u8]) -> Result<Command, LineError>
    ensures { MatchResult result (λ c. with_room rest.now (number_of (first_word rest.now)) ≡ asks (order_of c)) (λ e. Refuses e (with_room rest.now (number_of (first_word rest.now)))) }
{
    let (word, strings) = split_word(rest);
    let Some(room) = read_number(word) else {
        return Err(refusal(heap, word, Expected::Room));
    };
    Ok(Command::Resolve {
        room: room as usize,
        address: read_strings(heap, strings)?,
    })
}

/// The rest of a line by its name, `word`, or nothing, if it is no line's name.
fn read_named(heap: Global, word: &[u8], rest: &[u8]) -> Result<Option<Command>, LineError>
    ensures { MatchResult result (λ o. MatchOption o (named word.now rest.now ≡ refused word.now Call) (λ c. named word.now rest.now ≡ asks (order_of c))) (λ e. Refuses e (named word.now rest.now)) }
{
    match word {
        b"base" => Ok(Some(Command::Base(read_strings(heap, rest)?))),
        b"directory" => Ok(Some(Command::Directory(read_strings(heap, rest)?))),
        b"resolve" => Ok(Some(read_resolve(heap, trim_start(rest))?)),
        _ => Ok(None),
    }
}

/// A line with nothing around it.
fn read_bare(heap: Global, line: &[u8]) -> Result<Option<Command>, LineError>
    ensures { MatchResult result (λ o. bare line.now ≡ meaning_of o) (λ e. Refuses e (bare line.now)) }
{
    if let [] | [b'%', ..] = line {
        return Ok(None);
    }
    let (word, rest) = split_word(line);
    match read_named(heap, word, rest)? {
        Some(command) => Ok(Some(command)),
        None => Err(refusal(heap, word, Expected::Call)),
    }
}

/// What a line of a script asks for, or nothing, if it is skipped.
pub fn read_line(heap: Global, line: &[u8]) -> Result<Option<Command>, LineError>
    ensures { MatchResult result (λ o. line_of line.now ≡ meaning_of o) (λ e. Refuses e (line_of line.now)) }
{
    read_bare(heap, trim(line))
}
