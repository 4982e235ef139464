//! What stands at the start of each row.
ghost use Rattle.std.specs.Prelude.{◌≡◌, [], Some, None};
ghost use Rattle.std.specs.Option.{option_map};
ghost use Rattle.stack.specs.Held.{held, pushed, popped};
ghost use Rattle.line.specs.Markers.{marker_text};
ghost use Rattle.line.specs.Writer.{mk_prefix};
ghost use Rattle.line.specs.Reads.{override_of, prefix_of};

use crate::marker::Marker;
use crate::segment::Segment;
use stack::Stack;

/// A margin that ends in a marker.
#[derive(Clone, Copy)]
pub struct Override {
    pub(crate) segments: Stack<Segment>,
    pub(crate) marker: Marker,
}

/// The prefix written at the start of each row.
#[derive(Clone, Copy)]
pub struct LinePrefix {
    // The parts that every row has, unless the next has something in their place.
    pub(crate) segments: Stack<Segment>,
    // What the next row has in their place, once.
    pub(crate) next_override: Option<Override>,
}

impl LinePrefix {
    /// No margin.
    pub fn new() -> LinePrefix
        ensures { prefix_of result ≡ mk_prefix [] None }
    {
        LinePrefix {
            segments: Stack::new(Segment::Quote),
            next_override: None,
        }
    }

    /// Adds a part.
    pub fn push(&mut self, segment: Segment)
        ensures { prefix_of self.new ≡ mk_prefix (pushed (held self.old.segments) segment) (prefix_of self.old).next }
    {
        let _ = self.segments.push(segment);
    }

    /// Takes the part away that was added last.
    pub fn pop(&mut self)
        ensures { prefix_of self.new ≡ mk_prefix (popped (held self.old.segments)) (prefix_of self.old).next }
    {
        let _ = self.segments.pop();
    }

    /// Lets the next row have the parts and a marker behind them.
    pub fn set_next_override(&mut self, marker: Marker)
        ensures { prefix_of self.new ≡ mk_prefix (held self.old.segments) (Some (record { segments = held self.old.segments; marker = marker_text marker })) }
    {
        self.next_override = Some(Override {
            segments: self.segments,
            marker,
        });
    }

    /// Takes what the next row has in place of the parts.
    pub fn take_next(&mut self) -> Option<Override>
        ensures value { option_map override_of result ≡ (prefix_of self.old).next }
        ensures after { prefix_of self.new ≡ mk_prefix (held self.old.segments) None }
    {
        self.next_override.take()
    }
}
