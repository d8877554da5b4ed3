//! The commands of `feed_tool` that mirror a feed and audit a mirror: `mirror`, `mirror --fetch` and `audit`.
//!
//! Begin with [`mirror`], over a disk, the pile that is the input, and an output that the caller lends:
//!
//! ```
//! let base = Base::parse(alloc, b"https://example.org/feed/")?;
//! let mut input = ListSource::new(Bytes::of(alloc, pile)?, Many::new(alloc));
//! let status = mirror(alloc, &base, true, 1_048_576, &mut disk, &mut input, &mut output);
//! assert_eq!(rt; status.code(), 0);
//! ```
//!
//! [`mirror_fetched`] takes the documents from a source in place of a pile. Both keep them in the mirror's area of the
//! disk, and print a report or a certificate of coverage. [`audit`] checks such a certificate against a pile.
//!
//! The contract of each says which exit status it returns and which bytes it prints. The contracts of `mirror` and
//! `mirror_fetched` also say what a crash leaves of the area, and what is printed if one feed served all documents:
//! `specs/Mirroring.antt`. That of `audit` says what its status means: `specs/Audit.antt`.
//!
//! Stands on `mirror_walk` for the mirror, on `coverage_certificate` and `coverage_auditor` for certificates, on
//! `command_ends` for faults and their lines, and on `doc_source` for piles, the source, the input and the output.
#![tactic(auto)]

mod audited_pile;
mod auditing;
mod certificate_part;
mod fetched;
mod from_pile;
mod printed;
mod report;
mod report_fault;
mod verdict_line;

pub use auditing::audit;
pub use fetched::mirror_fetched;
pub use from_pile::mirror;
