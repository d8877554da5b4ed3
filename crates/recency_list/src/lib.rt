//! An order over slots, in which a slot moves to the front in constant time.
//!
//! The slots are numbered from 0. Each is in the list or isn't. A caller keeps a value for each slot, and the list has the
//! slots whose values are in use, the last one used first.
//!
//! Begin with [`Recency::reserve`], which is the only call that takes memory:
//!
//! ```
//! let mut order = Recency::new(alloc);
//! order.reserve(3)?;
//! let mut steps = Steps::<Brand>::new();
//! order.touch(2, &mut steps);
//! order.touch(0, &mut steps);
//! let newest = order.front(); // Some(0)
//! let next = order.older(0); // Some(2)
//! ```
//!
//! Each slot keeps its two neighbours in the list. [`Steps`] counts the writes to slots, so that contracts bound them. It
//! takes no bytes.
#![tactic(auto)]

mod links;
mod recency;
mod slots;
mod steps;
mod ticks;

pub use recency::Recency;
#[doc(hidden)]
pub use slots::{Slot, Slots};
pub use steps::Steps;
