//! Writing on a row that is open.
ghost use Rattle.std.specs.Prelude.{◌≡◌, ◌≤◌, length, OnErr, IfOk};
ghost use Rattle.paint.specs.Looks.{looks_of};
ghost use Rattle.paint.specs.Rows.{leaving, open_of, blank, indent as indent_by, write as written};

use crate::attrs::RunAttrs;
use crate::fault::RowFault;
use crate::open_line::OpenLine;
use crate::row::RowBuffer;
use crate::sync::append;
use std::alloc::{AllocError, Global};

impl OpenLine {
    /// A row with nothing in it; nothing is allocated later.
    pub fn new(heap: Global) -> Result<OpenLine, AllocError>
        ensures { IfOk result (λ o. open_of o ≡ blank) }
    {
        let row = RowBuffer::new(heap)?;
        Ok(OpenLine {
            row,
            margin: 0,
            column: 0,
            emitted: RunAttrs::new(),
        })
    }

    /// Takes everything away.
    pub fn clear(&mut self)
        ensures { open_of self.new ≡ blank }
    {
        self.row.clear();
        self.margin = 0;
        self.column = 0;
        self.emitted = RunAttrs::new();
    }

    /// Writes a part of the margin, so many columns wide, or changes nothing.
    pub fn indent(&mut self, text: &[u8], width: usize) -> Result<(), RowFault>
        ensures answer { leaving result (open_of self.new) ≡ indent_by text.now width (open_of self.old) }
        ensures kept { OnErr result (open_of self.new ≡ open_of self.old) }
    {
        append(text, &mut self.row)?;
        self.margin = self.row.len();
        self.column = self.column.saturating_add(width);
        Ok(())
    }

    /// Writes a text of the desired looks, so many columns wide; where it is linked, the address is given.
    pub fn write(
        &mut self,
        text: &[u8],
        width: usize,
        desired: &RunAttrs,
        address: &[u8],
    ) -> Result<(), RowFault>
        ensures { leaving result (open_of self.new) ≡ written text.now width (looks_of desired.now) address.now (open_of self.old) }
    {
        self.emitted.sync(desired, address, &mut self.row)?;
        append(text, &mut self.row)?;
        self.column = self.column.saturating_add(width);
        self.emitted = *desired;
        Ok(())
    }

    /// The columns used so far.
    pub fn column(&self) -> usize
        ensures { result ≡ self.now.column }
    {
        self.column
    }

    /// The row's bytes.
    pub fn bytes(&self) -> &[u8]
        ensures value { result.now ≡ self.now.row }
        ensures fits { length result.now ≤ 8192 }
    {
        self.row.as_slice()
    }

    /// Takes over another row. The room is there, so nothing is allocated, as `clone` would.
    pub fn copy_from(&mut self, other: &OpenLine)
        ensures { open_of self.new ≡ open_of other.now }
    {
        self.row.copy_from(&other.row);
        self.margin = other.margin;
        self.column = other.column;
        self.emitted = other.emitted;
    }
}
