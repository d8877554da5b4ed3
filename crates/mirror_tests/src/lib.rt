//! Tests of the public calls of `doc_source`, `mirror_walk` and `feed_relay`.
//!
//! They are in a crate of their own, so that these crates are proved once, without their tests. Most tests are tables
//! of courses (`courses`), whose documents and areas are data too (`documents`, `areas`).
//!
//! A test drops large values by `drop`: a value that goes out of scope is proved to be dropped field by field, in each
//! function.
#![tactic(auto)]

#[cfg(test)]
mod areas;
#[cfg(test)]
mod chains;
#[cfg(test)]
mod courses;
#[cfg(test)]
mod crashes;
#[cfg(test)]
mod documents;
#[cfg(test)]
mod faults;
#[cfg(test)]
mod fetches;
#[cfg(test)]
mod held;
#[cfg(test)]
mod logs;
#[cfg(test)]
mod mirrors;
#[cfg(test)]
mod offers;
#[cfg(test)]
mod orders;
#[cfg(test)]
mod piles;
#[cfg(test)]
mod refusals;
#[cfg(test)]
mod relays;
#[cfg(test)]
mod walks;
