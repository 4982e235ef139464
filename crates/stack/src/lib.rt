//! Stacks of a fixed size, held by value: of styles, and of the parts of a margin.
#![tactic(auto)]

mod stack;
mod stacking;

pub use stack::Stack;
