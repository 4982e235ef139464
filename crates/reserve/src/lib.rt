//! Lists of a limited length, with the memory for all of it taken once.
#![tactic(auto)]

mod fault;
mod filling;
mod reserved;

pub use fault::Full;
pub use reserved::Reserved;
