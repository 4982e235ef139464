//! Characters: how wide each is on the display, which are blank, and which texts may stand there at all.
#![tactic(auto)]

mod check;
mod control;
mod front;
mod hex;
mod panel;
mod table;
#[cfg(test)]
mod tests;
mod wide;
mod width;

pub use check::{BadText, check_text};
pub use control::{Breaks, is_control};
pub use front::first_char;
pub use hex::hex_digits;
pub use panel::Panel;
pub use table::CharTable;
pub use wide::Wide;
pub use width::text_width;
