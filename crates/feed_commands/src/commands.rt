//! The commands whose end isn't a text alone, each with its own module.

pub mod drill;
pub mod pile;
pub mod serve;
