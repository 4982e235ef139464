//! Cases of the resolver as tables: the examples of RFC 3986, those of the rules, and each limit at its last accepted value and the next.
#![tactic(auto)]

#[cfg(test)]
mod tests;
