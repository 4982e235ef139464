//! `Grid` as a board.
ghost use Rattle.std.specs.Prelude.{◌≡◌, ◌<◌, ◌≤◌, true, [], take};
ghost use Rattle.board.specs.Grids.{grid_rows, grid_fits};
ghost use Rattle.board.specs.GridFacts.{grid_countable, grid_regains_each};

use crate::board::{Board, BoardFault};
use crate::grid::{Grid, ROW_CELLS, ROWS, Strip};
use crate::row::Row;
use arrayvec::ArrayVec;

impl Grid {
    /// An empty grid.
    pub fn new() -> Grid
        ensures { grid_rows result ≡ [] }
    {
        Grid {
            strips: Default::default(),
            count: 0,
        }
    }

    /// Whether a row of that length fits: there are fewer than 64 rows, and it has at most 256 bytes.
    pub fn has_room(&self, length: usize) -> bool
        ensures room { result ≡ grid_fits (grid_rows self.now) length }
        ensures unused { result ≡ true → (self.now.count < 64) × (length ≤ 256) }
    {
        self.count < ROWS && length <= ROW_CELLS
    }

    // The strips that are rows.
    fn held(&self) -> &[Strip]
        ensures { result.now ≡ take self.now.count self.now.strips }
    {
        &self.strips[..self.count]
    }
}

impl Board for Grid {
    ghost rows = { grid_rows };

    ghost fits = { λ _. grid_fits };

    ghost countable = { λ g. grid_countable g };

    ghost regains = { λ g front row e. grid_regains_each g front row [] e };

    ghost regains_each = { λ g front row rest e. grid_regains_each g front row rest e };

    fn put(&mut self, row: Row<'_>) -> Result<(), BoardFault> {
        if !self.has_room(row.bytes.len()) {
            return Err(BoardFault);
        }
        let strip = &mut self.strips[self.count];
        strip.margin = row.margin;
        strip.bytes.clear();
        let _ = strip.bytes.try_extend_from_slice(row.bytes);
        self.count += 1;
        Ok(())
    }

    fn cut(&mut self, n: usize) {
        if n < self.count {
            self.count = n;
        }
    }

    fn count(&self) -> usize {
        self.count
    }

    fn margin(&self, row: usize) -> Option<usize> {
        self.held().get(row).map(|strip| strip.margin)
    }

    fn length(&self, row: usize) -> Option<usize> {
        self.held().get(row).map(|strip| strip.bytes.len())
    }

    fn byte(&self, row: usize, place: usize) -> Option<u8> {
        self.held().get(row)?.bytes.get(place).copied()
    }
}
