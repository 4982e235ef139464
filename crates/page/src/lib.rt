//! The page: it takes events one at a time, and lays them as rows on a board.
#![tactic(auto)]

mod block;
mod desk;
mod elements;
mod fault;
mod opening;
mod renderer;

pub use block::{BlockContext, CodeBlockState, InlineContext};
pub use fault::{PageFault, Refusal};
