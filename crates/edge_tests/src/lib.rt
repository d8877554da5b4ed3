//! Tests of `system_edge`: over a clock, a reader, a writer, words and an
//! environment in memory, and over TCP in one process.
#![tactic(auto)]

#[cfg(test)]
mod log;
#[cfg(test)]
mod progress;
#[cfg(test)]
mod system;
#[cfg(test)]
mod tcp;
#[cfg(test)]
mod words;
