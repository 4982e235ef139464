//! Where a link leads: from an address as written, a base and a site directory to the address that the link gets.
#![tactic(auto)]

mod buffer;
mod fault;
mod host;
mod output;
mod path;
mod percent;
mod reference;
mod rewrite;
mod write;

pub use buffer::Address;
pub use fault::{Layer, ResolveFault};
pub use host::{HostAnswer, berth_resolve};
pub use output::resolve;
pub use percent::percent_form;
pub use rewrite::rewrite_url;
