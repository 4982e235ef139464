//! Making a writer, and setting what its next words and rows look like.
ghost use Rattle.std.specs.Prelude.{◌≡◌, IfOk};
ghost use Rattle.line.specs.Markers.{marker_text};
ghost use Rattle.line.specs.Writer.{idle};
ghost use Rattle.line.specs.Flow.{push_style, pop_style, set_link, push_prefix, pop_prefix, set_marker};
ghost use Rattle.line.specs.Reads.{writer_of};

use crate::format::Format;
use crate::marker::Marker;
use crate::prefix::LinePrefix;
use crate::segment::Segment;
use crate::word::Word;
use crate::writer::{LineState, LineWriter};
use paint::{ClosedRow, LinkTarget, OpenLine, RunAttrs};
use std::alloc::{AllocError, Global};
use style::Style;

impl LineWriter {
    /// A writer with no word and no row; nothing is allocated later.
    pub fn new(heap: Global, format: Format) -> Result<LineWriter, AllocError>
        ensures { IfOk result (λ w. writer_of w ≡ idle format.width format.color format.hyperlinks) }
    {
        let row = OpenLine::new(heap)?;
        let closed = ClosedRow::new(heap)?;
        let word = Word::new(heap)?;
        Ok(LineWriter {
            format,
            prefix: LinePrefix::new(),
            line: LineState::AtStart,
            row,
            closed,
            word,
            pending_space: None,
            desired_attrs: RunAttrs::new(),
            rows: 0,
        })
    }

    /// Takes over what another writer holds. The room is there, so nothing is allocated, as `clone` would.
    pub fn copy_from(&mut self, other: &LineWriter)
        ensures { writer_of self.new ≡ writer_of other.now }
    {
        self.format = other.format;
        self.prefix = other.prefix;
        self.line = other.line;
        self.row.copy_from(&other.row);
        self.word.copy_from(&other.word);
        self.pending_space = other.pending_space;
        self.desired_attrs = other.desired_attrs;
        self.rows = other.rows;
    }

    /// How many rows were put.
    pub fn rows(&self) -> usize
        ensures { result ≡ (writer_of self.now).count }
    {
        self.rows
    }

    /// Puts a style on.
    pub fn push_style(&mut self, style: Style)
        ensures { writer_of self.new ≡ push_style style (writer_of self.old) }
    {
        let _ = self.desired_attrs.styles.push(style);
    }

    /// Takes the style off that was put on last.
    pub fn pop_style(&mut self)
        ensures { writer_of self.new ≡ pop_style (writer_of self.old) }
    {
        let _ = self.desired_attrs.styles.pop();
    }

    /// Lets what comes next lead to an address, or nowhere.
    pub fn set_link(&mut self, link: LinkTarget)
        ensures { writer_of self.new ≡ set_link link (writer_of self.old) }
    {
        self.desired_attrs.link = link;
    }

    /// Adds a part to the margin.
    pub fn push_prefix(&mut self, segment: Segment)
        ensures { writer_of self.new ≡ push_prefix segment (writer_of self.old) }
    {
        self.prefix.push(segment);
    }

    /// Takes the part of the margin away that was added last.
    pub fn pop_prefix(&mut self)
        ensures { writer_of self.new ≡ pop_prefix (writer_of self.old) }
    {
        self.prefix.pop();
    }

    /// Lets the next row begin with a marker behind its margin.
    pub fn set_item_marker(&mut self, marker: Marker)
        ensures { writer_of self.new ≡ set_marker (marker_text marker) (writer_of self.old) }
    {
        self.prefix.set_next_override(marker);
    }
}
