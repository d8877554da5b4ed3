//! Tests of the public calls of `feed_life` and `feed_drill`, and of a feed's life with relays.
//!
//! They are in a crate of their own, so that these crates are proved once, without their tests.
//!
//! A test drops large values by `drop`: a value that goes out of scope is proved to be dropped field by field, in each
//! function.
#![tactic(auto)]

#[cfg(test)]
mod courses;
#[cfg(test)]
mod draws;
#[cfg(test)]
mod events;
#[cfg(test)]
mod fold;
#[cfg(test)]
mod stores;
