//! Cases of the page's layout, as far as it is begun: each of its parts is made and used once.
#![tactic(auto)]

#[cfg(test)]
mod tests;
