//! Styles: the palette, one value for each appearance, the switch that turns each on, and a stack of those in force.
#![tactic(auto)]

mod palette;
mod stack;

pub use palette::{Style, reset, switch};
pub use stack::{StyleStack, put_on};
