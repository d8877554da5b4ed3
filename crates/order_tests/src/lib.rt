//! Tests of the public calls of `recency_list`.
//!
//! They are in a crate of their own, so that it is proved once, without its tests.
#![tactic(auto)]

#[cfg(test)]
mod changes;
#[cfg(test)]
mod orders;
