//! Tests of the public calls of `atom_writer`, `atom_grammar`, `member_rules` and `archive_sealer`.
//!
//! They are in a crate of their own so that those crates are proved once, without their tests.
//! A test drops large values by `drop`: a value that goes out of scope is proved to be dropped field by field,
//! in each function.
#![tactic(auto)]

#[cfg(test)]
mod codec;
#[cfg(test)]
mod generated;
#[cfg(test)]
mod reading;
#[cfg(test)]
mod rules;
#[cfg(test)]
mod samples;
#[cfg(test)]
mod sealing;
#[cfg(test)]
mod writing;
