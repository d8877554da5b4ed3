//! The documents of a history: the subscription document, and the archive of each window that the history has filled
//! (RFC 5005 section 4). Each is exactly the document that the specs of `member_rules` define. Stands on
//! `member_rules`, and on `recency_list` for the order of a window's items.
//!
//! A feed keeps a [`Window`], which is given each operation once and keeps no history:
//!
//! ```
//! let mut window = Window::new(alloc, head.window, head.name.title.copy(alloc)?)?;
//! window.prepare()?;
//! window.commit(operation);
//! if window.is_full() {
//!     let sealed = write_doc(alloc, &window.archive(&head)?)?;
//!     ..
//! }
//! let newest = write_doc(alloc, &window.subscription(&head)?)?;
//! ```
//!
//! [`subscription`] and [`archive`] make the same documents of a list of operations.
#![tactic(auto)]

mod document;
mod items;
mod past;
mod place;
mod window;

pub use document::{archive, full_windows, sealed_windows, subscription};
#[doc(hidden)]
pub use past::Past;
pub use window::Window;
