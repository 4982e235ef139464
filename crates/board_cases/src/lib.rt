//! Cases of both boards at their edges.
#![tactic(auto)]

#[cfg(test)]
mod tests;
