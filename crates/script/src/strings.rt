//! Strings: what stands between quotes, how often, and what strings side by side make.
ghost use Rattle.std.specs.Prelude.{◌≡◌, [], ◌++◌, IfOk, Some, vec_items, OnOk, MatchResult};
ghost use Rattle.std.specs.Option.{option_map};
ghost use Rattle.script.specs.declared.moves.Place.TheVariants.{Gap};
ghost use Rattle.std.specs.declared.alloc.AllocError.{AllocError};
ghost use Rattle.script.specs.declared.strings.ReaderError.TheVariants.{Memory};
ghost use Rattle.script.specs.Joins.{repeated, may_join};
ghost use Rattle.script.specs.Strings.{reading, meaning, stepped, joined_to, joined_at, string_of, Stops};

use crate::moves::{Act, Place, follow};
use std::alloc::{AllocError, AllocFailed, Global};

/// How long `*N` may make the strings of a line: 16 MiB, so that no script asks for all memory.
pub const LONGEST: usize = 16777216;

/// A reader of strings: where it stands, the strings that it has joined, and the one that it reads.
#[derive(Drop)]
pub struct Reader {
    pub place: Place,
    pub done: Vec<u8>,
    pub piece: Vec<u8>,
}

/// Why a reader stops: for want of memory, or since what it reads is no text of strings.
#[derive(Drop)]
pub enum ReaderError {
    Memory(AllocError),
    NoString,
}

impl From<AllocError> for ReaderError {
    ghost from_gives = { λ e r. r ≡ Memory e };

    fn from(error: AllocError) -> ReaderError {
        ReaderError::Memory(error)
    }
}

// The library has two errors for want of memory, and one impl for both would overlap others.
impl<T: Drop> From<AllocFailed<T>> for ReaderError {
    ghost from_gives = { λ _ r. (e : AllocError) × (r ≡ Memory e) };

    fn from(error: AllocFailed<T>) -> ReaderError {
        ReaderError::Memory(AllocError::from(error))
    }
}

/// Whether a piece of a length may be joined so often: once always, and else if all of it stays in the limit.
fn may_join(times: u32, done: usize, piece: usize) -> bool
    ensures { result ≡ may_join times done piece }
{
    times <= 1 || done.saturating_add(piece.saturating_mul(times as usize)) <= LONGEST
}

/// Puts the piece behind what is done, so many times.
fn append(done: &mut Vec<u8>, piece: &[u8], times: u32) -> Result<(), AllocError>
    ensures { OnOk result (done.new.items ≡ done.old.items ++ repeated times piece.now) }
{
    if piece.is_empty() {
        return Ok(());
    }
    for _ in 0..times {
        done.extend_from_slice(piece)?;
    }
    Ok(())
}

impl Reader {
    pub(crate) fn new(heap: Global) -> Reader
        ensures { meaning result ≡ reading Gap [] [] }
    {
        Reader {
            place: Place::Gap,
            done: Vec::new(heap),
            piece: Vec::new(heap),
        }
    }

    /// Joins the string that was read, so many times, if the limit allows it.
    fn join(&mut self, times: u32) -> Result<(), ReaderError>
        ensures { MatchResult result (λ _. joined_to self.old.place times self.old.done.items self.old.piece.items ≡ Some (meaning self.new)) (λ e. Stops e (joined_to self.old.place times self.old.done.items self.old.piece.items)) }
    {
        if !may_join(times, self.done.len(), self.piece.len()) {
            return Err(ReaderError::NoString);
        }
        append(&mut self.done, &self.piece, times)?;
        self.piece.clear();
        Ok(())
    }

    /// Reads one byte, if it may stand there.
    fn take(&mut self, b: u8) -> Result<(), ReaderError>
        ensures { MatchResult result (λ _. stepped (meaning self.old) b ≡ Some (meaning self.new)) (λ e. Stops e (stepped (meaning self.old) b)) }
    {
        let next = follow(self.place, b).ok_or(ReaderError::NoString)?;
        self.place = next.place;
        match next.act {
            Act::Wait => {}
            Act::Add(b) => self.piece.push(b)?,
            Act::Join(times) => self.join(times)?,
        }
        Ok(())
    }

    /// What is joined, if no string is half read.
    fn finish(self) -> Option<Vec<u8>>
        ensures { option_map vec_items result ≡ joined_at self.place self.done.items }
    {
        match self.place {
            Place::Gap => Some(self.done),
            _ => None,
        }
    }
}

/// The bytes of the strings in `text`, joined.
fn read_text(heap: Global, text: &[u8]) -> Result<Vec<u8>, ReaderError>
    ensures { MatchResult result (λ v. string_of text.now ≡ Some v.items) (λ e. Stops e (string_of text.now)) }
{
    let mut reader = Reader::new(heap);
    for b in text {
        reader.take(*b)?;
    }
    // the space ends the last string
    reader.take(b' ')?;
    reader.finish().ok_or(ReaderError::NoString)
}

/// The bytes of the strings in `text`, joined; none where it is no text of strings.
pub fn read_string(heap: Global, text: &[u8]) -> Result<Option<Vec<u8>>, AllocError>
    ensures { IfOk result (λ o. option_map vec_items o ≡ string_of text.now) }
{
    match read_text(heap, text) {
        Ok(string) => Ok(Some(string)),
        Err(ReaderError::Memory(error)) => Err(error),
        Err(ReaderError::NoString) => Ok(None),
    }
}
