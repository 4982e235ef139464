//! What a script asks for, step by step.

/// A setting or a call of a script.
#[derive(Drop)]
pub enum Command {
    /// The base of the addresses behind it.
    Base(Vec<u8>),
    /// The directory of the addresses behind it.
    Directory(Vec<u8>),
    /// An address to be resolved into so many bytes.
    Resolve { room: usize, address: Vec<u8> },
}

/// A command, and the number of its line.
#[derive(Drop)]
pub struct Step {
    pub number: usize,
    pub command: Command,
}
