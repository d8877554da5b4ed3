//! Coverage certificates: a mirror's certificate shows to others which documents the mirror holds.
//!
//! Begin with [`Certificate::of`], and give the text to others with [`Certificate::print`]. They read it with
//! [`Certificate::read`]:
//!
//! ```
//! let certificate = Certificate::of(alloc, &mut mirror, &mut disk)?;
//! certificate.print(&mut sink)?;
//!
//! let certificate = Certificate::read(alloc, text)?;
//! println!(rt; "{} live entries", certificate.live_count)?;
//! ```
//!
//! Each line of the text ends with LF:
//!
//! ```text
//! coverage 1
//! feed FEEDID BASE
//! version N
//! document ADDRESS DIGEST
//! live COUNT DIGEST
//! end
//! ```
//!
//! There are one or more `document` lines. The first has the feed's address, and the others have archives'. A
//! mirror's certificate lists the best subscription document, and then its archives from `prev` down to 1. The
//! digest of a line is that of the document's bytes (SHA-256, FIPS 180-4). The digest of the live entries is
//! that of their member documents, joined in order of number.
//!
//! A certificate has one text, and a text is that of one certificate at most: the law in `laws.rt` says so.
//! `specs/Text.antt` defines the text, and `specs/Held.antt` the certificate of what a mirror holds.
//!
//! Stands on `mirror_walk` for the mirror, on `atom_writer` for the member documents, on `doc_source` for the
//! trait of a sink, on `sha2` for digests and on `hex` for their text.
#![tactic(auto)]

mod certificate;
mod certificate_fault;
mod cover_line;
mod field;
mod laws;
mod live;
mod of;
mod print;
mod read;

pub use certificate::{Certificate, MAX_COVER_LINES};
pub use certificate_fault::CertificateFault;
pub use cover_line::CoverLine;
pub use laws::certificates_have_one_text;
pub use read::MAX_CERTIFICATE;
