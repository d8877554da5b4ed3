//! Tests of the public calls of `atom_values`, `chain_links` and `deleted_entries`.
//!
//! They are in a crate of their own, so that those crates are proved once, without their tests. A test drops large values by
//! `drop`: a value that goes out of scope is proved to be dropped field by field, in each function.
#![tactic(auto)]

#[cfg(test)]
mod addresses;
#[cfg(test)]
mod calls;
#[cfg(test)]
mod copies;
#[cfg(test)]
mod entries;
#[cfg(test)]
mod ids;
#[cfg(test)]
mod lists;
#[cfg(test)]
mod samples;
#[cfg(test)]
mod sentences;
#[cfg(test)]
mod stamps;
#[cfg(test)]
mod texts;
