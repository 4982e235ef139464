//! Examples of scripts: a crate of their own, so that the library is proved once.
#![tactic(auto)]

#[cfg(test)]
mod tests;
