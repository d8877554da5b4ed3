//! Tests of the public calls of `http_face`, `document_server` and `service_face`.
//!
//! They are in a crate of their own, so that the crate is proved once, without its tests.
//! A test drops large values by `drop`: a value that goes out of scope is proved to be dropped field by field, in each
//! function.
#![tactic(auto)]

#[cfg(test)]
mod answer_faults;
#[cfg(test)]
mod answers;
#[cfg(test)]
mod changes;
#[cfg(test)]
mod conns;
#[cfg(test)]
mod pages;
#[cfg(test)]
mod replies;
#[cfg(test)]
mod requests;
#[cfg(test)]
mod responses;
#[cfg(test)]
mod sentences;
#[cfg(test)]
mod sessions;
#[cfg(test)]
mod stores;
#[cfg(test)]
mod watched;
