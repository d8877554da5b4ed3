use crate::cover_line::{CoverLine, digest_fits};
use atom_values::{Copies, Many, NoMemory};
use chain_links::Base;
use deleted_entries::FeedId;
use std::alloc::Global;
use std::marker::Model;

/// The greatest number of documents that a certificate lists, which is that of addresses: the feed and its archives.
pub const MAX_COVER_LINES: u32 = u32::MAX;

/// The documents that a complete mirror of a feed holds, and the live entries that they show.
///
/// There is a first line. Its address is the feed's, and the addresses of the other lines are archives'.
#[derive(Debug, Drop)]
pub struct Certificate {
    /// The feed's identifier.
    pub feed: FeedId,
    /// The base below which the documents have their addresses.
    pub base: Base,
    /// The number of operations that the first document ends with.
    pub version: u32,
    /// The documents, newest first.
    pub lines: Many<CoverLine, MAX_COVER_LINES>,
    /// The number of live entries.
    pub live_count: u32,
    /// The SHA-256 digest of the live entries' member documents, joined in order of number.
    pub live_digest: [u8; 32],
}

impl Model for Certificate {
    ghost use Rattle.coverage_certificate.specs.Certificate.{AreCoverLines, CertificateValue};

    ghost Value = { CertificateValue };

    ghost view = { λ c. record {
      feed = c.feed;
      base = c.base;
      version = c.version;
      lines = c.lines.items;
      live_count = c.live_count;
      live_digest = c.live_digest;
    } };

    ghost invariant = { λ c. AreCoverLines c.lines.items };
}

impl Copies for Certificate {
    ghost use Rattle.coverage_certificate.specs.Certificate.{IsCertificate};

    ghost rules = { λ certificate. IsCertificate certificate };

    fn copy(&self, alloc: Global) -> Result<Certificate, NoMemory> {
        digest_fits(&self.live_digest);
        let feed = self.feed.copy(alloc)?;
        let base = self.base.copy(alloc)?;
        let version = self.version.copy(alloc)?;
        let lines = self.lines.copy(alloc)?;
        let live_count = self.live_count.copy(alloc)?;
        Ok(Certificate {
            feed,
            base,
            version,
            lines,
            live_count,
            live_digest: self.live_digest,
        })
    }
}
