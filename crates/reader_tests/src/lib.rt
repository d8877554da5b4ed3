//! Tests of the public calls of `xml_tokens`, `entry_reader`, `feed_reader` and `service_reader`.
//!
//! They are in a crate of their own, so that it is proved once, without its tests.
//! A test drops large values by `drop`: a value that goes out of scope is proved to be dropped field by field,
//! in each function.
#![tactic(auto)]

#[cfg(test)]
mod entries;
#[cfg(test)]
mod feed_refusals;
#[cfg(test)]
mod feeds;
#[cfg(test)]
mod refusals;
#[cfg(test)]
mod service_refusals;
#[cfg(test)]
mod services;
#[cfg(test)]
mod shown;
#[cfg(test)]
mod tokens;
