//! Tests of the public calls of `tool_words` and `feed_commands`.
//!
//! They are in a crate of their own, so that these crates are proved once, without their tests.
//!
//! Almost all are scripts of runs. `scripts` says how one is written, and `text` how its inputs and outputs are. A script is
//! one text, since each text and each slice of a table counts in the proof of each function that reads the table.
//!
//! A function drops large values by `drop`: a value that goes out of scope is proved to be dropped field by field, in
//! each function.
#![tactic(auto)]

#[cfg(test)]
mod apply;
#[cfg(test)]
mod audit;
#[cfg(test)]
mod certificates;
#[cfg(test)]
mod covered;
#[cfg(test)]
mod discover;
#[cfg(test)]
mod drills;
#[cfg(test)]
mod faults;
#[cfg(test)]
mod fetches;
#[cfg(test)]
mod foreign;
#[cfg(test)]
mod generated;
#[cfg(test)]
mod hostile;
#[cfg(test)]
mod mirror;
#[cfg(test)]
mod pile;
#[cfg(test)]
mod relays;
#[cfg(test)]
mod runs;
#[cfg(test)]
mod scripts;
#[cfg(test)]
mod scrubs;
#[cfg(test)]
mod serve;
#[cfg(test)]
mod show;
#[cfg(test)]
mod store;
#[cfg(test)]
mod text;
#[cfg(test)]
mod words;
