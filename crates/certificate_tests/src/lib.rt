//! Tests of the public calls of `coverage_certificate` and `coverage_auditor`.
//!
//! They are in a crate of their own, so that these crates are proved once, without their tests.
//! A test drops large values by `drop`: a value that goes out of scope is proved to be dropped field by field, in each
//! function.
#![tactic(auto)]

#[cfg(test)]
mod faults;
#[cfg(test)]
mod making;
#[cfg(test)]
mod reading;
#[cfg(test)]
mod texts;
#[cfg(test)]
mod verdicts;
