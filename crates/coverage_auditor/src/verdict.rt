use chain_links::Address;

/// The verdict on a certificate. Each variant but `Accepted` is a refusal.
#[derive(Clone, Copy, Debug, PartialEq, Eq)]
pub enum Verdict {
    /// The documents cover the certificate. `version` and `live` are the certificate's.
    Accepted { version: u32, live: u32 },
    /// The pile has no document of a line's address.
    NoDocument { address: Address },
    /// The pile has documents of a line's address, and none with the line's digest. The first of them has the
    /// SHA-256 digest `found`.
    DigestDiffers { address: Address, found: [u8; 32] },
    /// The bytes of a line's document are the text of no document.
    NotADocument { address: Address },
    /// A line's document states another address, another base or another feed.
    WrongDocument { address: Address },
    /// The first line's document ends with the operation `found`, which isn't the certificate's version.
    VersionDiffers { found: u32 },
    /// The document of the line with this address doesn't come right before that of the line above.
    BrokenChain { address: Address },
    /// The last line's document begins with the operation `first`, which isn't 1.
    NotTheFirst { first: u32 },
    /// The documents show `count` live entries, whose member documents have the SHA-256 digest `found`.
    LiveDiffers { count: u32, found: [u8; 32] },
}
