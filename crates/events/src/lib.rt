//! Events: what a record says, and where an event may stand.
#![tactic(auto)]

mod element;
mod elements;
mod frame;
mod kind;
mod list_stack;
mod nesting;
mod part;
mod record;
#[cfg(test)]
mod tests;

pub use element::{Element, Event};
pub use elements::Elements;
pub use frame::ListFrame;
pub use kind::UnknownKind;
pub use list_stack::{ListStack, next_marker};
pub use nesting::has_place;
pub use part::{HIGHEST_NUMBER, Part, part_of};
pub use record::Record;
