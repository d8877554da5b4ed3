//! Tests of the public calls of `feed_disk`, `feed_journal` and `feed_recovery`.
//!
//! They are in a crate of their own, so that those crates are proved once, without their tests.
//! A test drops large values by `drop`: a value that goes out of scope is proved to be dropped field by field, in each
//! function.
#![tactic(auto)]

#[cfg(test)]
mod commits;
#[cfg(test)]
mod disks;
#[cfg(test)]
mod faults;
#[cfg(test)]
mod files;
#[cfg(test)]
mod formats;
#[cfg(test)]
mod grown;
#[cfg(test)]
mod images;
#[cfg(test)]
mod logs;
#[cfg(test)]
mod reader;
#[cfg(test)]
mod scrubs;
#[cfg(test)]
mod stores;
