//! `Sheet` as a board.
ghost use Rattle.std.specs.Prelude.{◌≡◌, ◌+◌, ◌<◌, true, [], IfOk, vec_len, vec_capacity};
ghost use Rattle.std.specs.List.{slice_get};
ghost use Rattle.board.specs.Sheets.{sheet_rows, sheet_fits, room_for};
ghost use Rattle.board.specs.SheetFacts.{sheet_countable, sheet_regains_each};

use crate::board::{Board, BoardFault};
use crate::entry::Entry;
use crate::row::Row;
use crate::sheet::Sheet;
use std::alloc::{AllocError, Global};

impl Sheet {
    /// An empty sheet with a table of so many rows and an area of so many bytes: nothing is allocated later.
    pub fn new(heap: Global, rows_most: usize, bytes_most: usize) -> Result<Sheet, AllocError>
        ensures { IfOk result (λ s. (sheet_rows s ≡ []) × (sheet_fits s ≡ room_for rows_most bytes_most)) }
    {
        let entries = Vec::with_capacity(heap, rows_most)?;
        let area = Vec::with_capacity(heap, bytes_most)?;
        Ok(Sheet {
            entries,
            area,
            bytes_most,
        })
    }

    /// Whether a row of that length fits: a place in the table and its length plus 1 of the bytes are unused.
    pub fn has_room(&self, length: usize) -> bool
        ensures room { result ≡ sheet_fits self.now (sheet_rows self.now) length }
        ensures unused { result ≡ true → (vec_len self.now.entries < vec_capacity self.now.entries) × (vec_len self.now.area + length < self.now.bytes_most) }
    {
        length < self.bytes_most - self.area.len() && self.entries.len() < self.entries.capacity()
    }

    // Where a row lies.
    fn entry(&self, row: usize) -> Option<Entry>
        ensures { result ≡ slice_get self.now.entries.items row }
    {
        self.entries.get(row).copied()
    }
}

impl Board for Sheet {
    ghost rows = { sheet_rows };

    ghost fits = { sheet_fits };

    ghost countable = { λ s. sheet_countable s };

    ghost regains = { λ s front row e. sheet_regains_each s front row [] e };

    ghost regains_each = { λ s front row rest e. sheet_regains_each s front row rest e };

    fn put(&mut self, row: Row<'_>) -> Result<(), BoardFault> {
        let start = self.area.len();
        let length = row.bytes.len();
        if !self.has_room(length) {
            return Err(BoardFault);
        }
        let _ = self.area.extend_from_slice(row.bytes);
        self.area.push_reserved(10);
        self.entries.push_reserved(Entry {
            margin: row.margin,
            start,
            length,
        });
        Ok(())
    }

    fn cut(&mut self, n: usize) {
        if let Some(entry) = self.entry(n) {
            self.area.truncate(entry.start);
            self.entries.truncate(n);
        }
    }

    fn count(&self) -> usize {
        self.entries.len()
    }

    fn margin(&self, row: usize) -> Option<usize> {
        self.entry(row).map(|entry| entry.margin)
    }

    fn length(&self, row: usize) -> Option<usize> {
        self.entry(row).map(|entry| entry.length)
    }

    fn byte(&self, row: usize, place: usize) -> Option<u8> {
        let entry = self.entry(row)?;
        if place < entry.length {
            Some(self.area[entry.start + place])
        } else {
            None
        }
    }
}
