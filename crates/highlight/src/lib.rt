//! Highlighting: code on a display is coloured line by line, and a line falls into tokens.
#![tactic(auto)]

mod highlighter;
mod piece;
mod plain;
mod room;
#[cfg(test)]
mod tests;
mod token;
mod toml;

pub use highlighter::Highlighter;
pub use piece::Mode;
pub use plain::Plain;
pub use room::{LongLine, Tokens};
pub use token::{Kind, Token, toml_style};
pub use toml::Toml;
