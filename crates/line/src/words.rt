//! Making words.
ghost use Rattle.std.specs.Prelude.{◌≡◌, ◌+◌, ◌<◌, ◌≤◌, length, OnErr, IfOk, ◌==◌};
ghost use Rattle.paint.specs.Looks.{looks_of};
ghost use Rattle.paint.specs.Rows.{leaving};
ghost use Rattle.line.specs.Words.{added, push_word};
ghost use Rattle.line.specs.Writer.{no_word};
ghost use Rattle.line.specs.Reads.{word_of};

use crate::fault::LineFault;
use crate::word::{Span, Word};
use chars::{CharTable, text_width};
use paint::RunAttrs;
use reserve::Reserved;
use std::alloc::{AllocError, Global};

impl Word {
    /// No word; nothing is allocated later.
    pub fn new(heap: Global) -> Result<Word, AllocError>
        ensures { IfOk result (λ w. word_of w ≡ no_word) }
    {
        let text = Reserved::new(heap)?;
        let spans = Reserved::new(heap)?;
        Ok(Word {
            text,
            spans,
            width: 0,
        })
    }

    /// Whether there is no word.
    pub fn is_empty(&self) -> bool
        ensures { result ≡ (length (word_of self.now).pieces == 0) }
    {
        self.spans.is_empty()
    }

    /// Takes the word away.
    pub fn clear(&mut self)
        ensures { word_of self.new ≡ no_word }
    {
        self.text.clear();
        self.spans.clear();
        self.width = 0;
    }

    // Adds a piece that fits.
    fn add(&mut self, text: &[u8], width: usize, desired: &RunAttrs)
        requires { (length self.old.text + length text.now ≤ 1024) × (length self.old.spans < 64) }
        ensures { word_of self.new ≡ added text.now width (looks_of desired.now) (word_of self.old) }
    {
        let _ = self.text.extend_from_slice(text);
        let _ = self.spans.push(Span {
            length: text.len(),
            width,
            desired: *desired,
        });
        self.width = self.width.saturating_add(width);
    }

    /// Adds a piece, up to 1,024 bytes and 64 pieces, or changes nothing.
    pub fn push<C: CharTable>(
        &mut self,
        table: &C,
        text: &str,
        desired: &RunAttrs,
    ) -> Result<(), LineFault>
        ensures answer { leaving result (word_of self.new) ≡ push_word (C.CharTable.columns table.now) text.now (looks_of desired.now) (word_of self.old) }
        ensures kept { OnErr result (word_of self.new ≡ word_of self.old) }
    {
        if text.len() > self.text.room() {
            return Err(LineFault::Held);
        }
        if self.spans.room() < 1 {
            return Err(LineFault::Held);
        }
        self.add(text.as_bytes(), text_width(table, text), desired);
        Ok(())
    }

    /// Takes over another word. The room is there, so nothing is allocated, as `clone` would.
    pub fn copy_from(&mut self, other: &Word)
        ensures { word_of self.new ≡ word_of other.now }
    {
        self.text.copy_from(&other.text);
        self.spans.copy_from(&other.spans);
        self.width = other.width;
    }
}
