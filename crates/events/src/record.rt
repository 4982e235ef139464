//! An event's record.

/// What a caller hands over for an event: its kind, a number, and a part of its text. A host in C has no enum to hand over, so the kind is
/// a number.
#[derive(Clone, Copy)]
pub struct Record {
    pub kind: u32,
    pub number: u32,
    pub start: u32,
    pub length: u32,
}
