//! Audits coverage certificates: checks one against a pile of documents, without trust in the mirror that made it.
//!
//! Begin with [`audit`], the only call:
//!
//! ```
//! let certificate = Certificate::read(alloc, text)?;
//! match audit(alloc, &certificate, &pile)? {
//!     Verdict::Accepted { version, live } => println!(rt; "{live} entries at version {version}")?,
//!     verdict => println!(rt; "refused: {verdict:?}")?,
//! }
//! ```
//!
//! A certificate is accepted exactly if its lines' documents are in the pile, are a whole chain (RFC 5005 section 4)
//! that ends with the certificate's version, and show live entries of the certificate's number and digest:
//! `specs/Verdict.antt` defines this as `Covers`, and the verdict on any other certificate as the first check that
//! fails. If one feed served all documents of the pile, an accepted certificate states the feed's chain and its live
//! entries at that version: `specs/Certified.antt`.
//!
//! Stands on `coverage_certificate` for the certificate and its definitions, on `mirror_walk` for the outlines of
//! documents, on `atom_grammar`, which reads their entries, on `member_rules` and `mirror_walk` for the definitions of
//! chains and live entries, on `doc_source` for the offers of a pile, and on `sha2`.
#![tactic(auto)]

mod auditor;
mod chain;
mod document;
mod halt;
mod laws;
mod links;
mod live;
mod offers;
mod verdict;

pub use auditor::audit;
pub use laws::{audits_have_one_verdict, own_certificates_are_accepted};
pub use verdict::Verdict;
