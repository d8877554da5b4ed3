use feed_disk::Choice;
use http_face::Request;
use member_rules::Setting;

/// A crash within an event.
#[derive(Debug, Drop)]
pub struct Stop {
    /// The device call of the event that the crash falls within, counted from 1 after the load of the store or the
    /// mirror. 0 is a crash before the first call. A number past the last call is a crash after it.
    pub call: u64,
    /// The content that unsynced bytes and sizes have after a crash.
    pub choice: Choice,
}

/// An event in a life, which one step runs.
#[derive(Debug, Drop)]
pub enum Event {
    /// A request to the store, with the clock at `now`.
    Ask {
        request: Request,
        now: u64,
        stop: Option<Stop>,
    },
    /// The document `sent`, counted from 0, of those that the store sent is offered to a mirror.
    Give {
        mirror: u32,
        sent: u32,
        stop: Option<Stop>,
    },
    /// A mirror walks over the documents of the store.
    Walk {
        mirror: u32,
        stop: Option<Stop>,
    },
    /// The operator changes a setting of the feed, with the clock at `now`. A refused change does nothing.
    Set {
        setting: Setting,
        now: u64,
        stop: Option<Stop>,
    },
}
