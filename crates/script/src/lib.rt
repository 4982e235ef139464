//! Page scripts: one call or setting to a line, read as a whole before anything is run.
#![tactic(auto)]

mod command;
mod fault;
mod lines;
mod moves;
mod numbers;
mod printing;
mod reading;
mod strings;
mod words;

pub use command::{Command, Step};
pub use fault::{Expected, Refusal, ScriptError};
pub use lines::{LineError, read_line};
pub use printing::{Quoted, write_string};
pub use reading::read_script;
pub use strings::read_string;
