use atom_values::Bytes;
use atom_writer::FeedName;
use chain_links::Base;

/// The most operations of a window.
pub(crate) const WINDOW_LIMIT: u64 = 100;

/// A command, with its values.
#[derive(Debug, Drop)]
pub enum Command {
    /// `init`: makes a store. The window has from 1 to 100 operations. The capacity is from 4,096 to
    /// 68,719,476,736 bytes.
    Init {
        name: FeedName,
        window: u32,
        capacity: u64,
    },
    /// `apply`: applies lines. If a window is given, which is from 1 to 100, to an empty history, and else to the
    /// store.
    Apply {
        window: Option<u32>,
    },
    /// `show`: prints a document.
    Show(Show),
    /// `serve`: serves the store over HTTP. `listen` is the address to listen at, which has from 1 to 255 bytes.
    /// The command ends after `requests` requests, which are from 1 to 1,000,000. If `service`, it also serves the
    /// service document and the listing of members.
    Serve {
        listen: Bytes,
        requests: u32,
        service: bool,
    },
    /// `mirror`: mirrors the feed below a base address. If `fetch`, the documents come from the server, and else from
    /// the pile that is the input. If `report`, a report is printed, and else the mirror's certificate. The mirror's
    /// area has at most `capacity` bytes, which are from 4,096 to 68,719,476,736.
    Mirror {
        base: Base,
        fetch: bool,
        report: bool,
        capacity: u64,
    },
    /// `audit`: checks a mirror's certificate against a pile of documents.
    Audit,
    /// `drill`: runs a store and a mirror with `count` generated requests, which are from 1 to 2,000. `seed` is the
    /// first state of the generator.
    Drill {
        seed: u64,
        count: u32,
    },
    /// `foreign`: walks the archived feed of any server and prints its live entries. `from` is the address of the feed's
    /// newest document, an `http` URL that the parser of the URL Standard leaves as it is.
    Foreign {
        from: Bytes,
    },
    /// `discover`: reads the service document of any server and prints its collections. `address` is that of the
    /// document, an `http` URL that the parser of the URL Standard leaves as it is.
    Discover {
        address: Bytes,
    },
    /// `relay`: serves the documents of a mirror over HTTP. `base` is the base address of the mirror, whose area has at
    /// most `capacity` bytes, which are from 4,096 to 68,719,476,736. `listen` is the address to listen at, which has
    /// from 1 to 255 bytes. The command ends after `requests` requests, which are from 1 to 1,000,000.
    Relay {
        base: Base,
        listen: Bytes,
        requests: u32,
        capacity: u64,
    },
    /// `scrub`: looks at the whole store, and says whether it is sound. If `repair`, it makes the archives again from
    /// the journal.
    Scrub {
        repair: bool,
    },
}

/// The document or listing that `show` prints.
#[derive(Clone, Copy, Debug, PartialEq, Eq)]
pub enum Show {
    /// The summary of the document that is the input.
    Document,
    /// The store's subscription document.
    Feed,
    /// The store's archive of this number, from 1 on.
    Archive(u32),
    /// The document of the store's member of this number, from 1 on.
    Member(u32),
    /// The store's subscription document and all its archives, as a pile.
    Pile,
}
