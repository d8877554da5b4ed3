ghost use Rattle.std.specs.Prelude.{◌≡◌, option_map, codes};
ghost use Rattle.http_face.specs.Reply.{media_text, allow_text, line_reply, line_text, body_text, optional_header};
ghost use Rattle.http_face.specs.Reply.{document_reply, not_allowed as refused_method};

use atom_values::{Bytes, Copies, NoMemory};
use std::alloc::Global;

/// The media type of a reply's body.
#[derive(Clone, Copy, Debug, PartialEq, Eq)]
pub enum Media {
    /// A feed document (RFC 4287).
    Feed,
    /// An entry document (RFC 4287).
    Entry,
    /// A service document (RFC 5023 section 8).
    Service,
    /// Lines of text in UTF-8.
    Plain,
}

/// The methods that a target allows, which a reply with the status 405 names (RFC 9110 section 10.2.1).
#[derive(Clone, Copy, Debug, PartialEq, Eq)]
pub enum Allow {
    /// GET and POST.
    OfFeed,
    /// GET.
    OfArchive,
    /// GET, PUT and DELETE.
    OfMember,
}

/// The body of a reply.
#[derive(Debug, Drop)]
pub enum Body {
    /// Bytes that were made for it.
    Made(Bytes),
    /// One of the fixed lines.
    Fixed(Line7),
}

/// A line of text that is the body of a reply. It ends with LF and has the words of its variant's name, as
/// `not an entry type`.
#[derive(Clone, Copy, Debug, PartialEq, Eq)]
pub enum Line7 {
    BadHead,
    HeadTooLarge,
    EndedEarly,
    NoLength,
    TwoLengths,
    BodyTooLarge,
    NotImplemented,
    NotFound,
    NotAllowed,
    Gone,
    NotEntryType,
    Draft,
    OtherId,
    Clock,
    EntryTooLarge,
    Disk,
    Changed,
    Deleted,
    NoMemory,
}

/// A reply to a request (RFC 9112 section 4). [`crate::write_reply`] writes it if `http` has a phrase for its status.
#[derive(Debug, Drop)]
pub struct Reply {
    pub status: u16,
    /// The media type of the body, for `Content-Type`.
    pub media: Media,
    /// The address of a member that was made, for `Location`.
    pub location: Option<Bytes>,
    /// The methods that the target allows, for `Allow`.
    pub allow: Option<Allow>,
    pub body: Body,
}

impl Reply {
    /// A reply whose body is one of the fixed lines.
    pub fn line(status: u16, line: Line7) -> Reply
        ensures { result ≡ line_reply status line }
    {
        Reply {
            status,
            media: Media::Plain,
            location: None,
            allow: None,
            body: Body::Fixed(line),
        }
    }

    /// The reply to a method that the target doesn't allow (RFC 9110 section 15.5.6).
    pub fn not_allowed(allow: Allow) -> Reply
        ensures { result ≡ refused_method allow }
    {
        Reply {
            allow: Some(allow),
            ..Reply::line(405, Line7::NotAllowed)
        }
    }

    /// A reply with the status 200 whose body is a document.
    pub fn document(media: Media, text: Vec<u8>) -> Reply
        ensures { result ≡ document_reply media text.items }
    {
        Reply {
            status: 200,
            media,
            location: None,
            allow: None,
            body: Body::Made(Bytes::from_vec(text)),
        }
    }
}

impl Copies for Body {
    ghost rules = { λ body. Unit {0} };

    fn copy(&self, alloc: Global) -> Result<Body, NoMemory> {
        match self {
            Body::Made(bytes) => Ok(Body::Made(bytes.copy(alloc)?)),
            Body::Fixed(line) => Ok(Body::Fixed(*line)),
        }
    }
}

impl Copies for Reply {
    ghost use Rattle.http_face.specs.Reply.{IsReply};

    ghost rules = { IsReply };

    fn copy(&self, alloc: Global) -> Result<Reply, NoMemory> {
        // Read here, so that `rules` knows the range of a `u16`.
        let status = self.status;
        Ok(Reply {
            status,
            media: self.media,
            location: self.location.copy(alloc)?,
            allow: self.allow,
            body: self.body.copy(alloc)?,
        })
    }
}

impl Media {
    /// The value of `Content-Type`.
    pub(crate) fn text(self) -> &'static [u8]
        ensures { result.now ≡ media_text self }
    {
        match self {
            Media::Feed => b"application/atom+xml;type=feed",
            Media::Entry => b"application/atom+xml;type=entry",
            Media::Service => b"application/atomsvc+xml",
            Media::Plain => b"text/plain;charset=utf-8",
        }
    }
}

impl Allow {
    /// The line of the head that names the methods.
    pub(crate) fn header(allow: Option<Allow>) -> &'static [u8]
        ensures { result.now ≡ optional_header (codes "Allow") (option_map allow_text allow) }
    {
        match allow {
            None => b"",
            Some(Allow::OfFeed) => b"Allow: GET, POST\r\n",
            Some(Allow::OfArchive) => b"Allow: GET\r\n",
            Some(Allow::OfMember) => b"Allow: GET, PUT, DELETE\r\n",
        }
    }
}

impl Body {
    /// The bytes.
    pub(crate) fn bytes(&self) -> &[u8]
        ensures { result.now ≡ body_text self.now }
    {
        match self {
            Body::Made(bytes) => bytes.slice(),
            Body::Fixed(line) => line.text(),
        }
    }
}

impl Line7 {
    /// The line.
    fn text(self) -> &'static [u8]
        ensures { result.now ≡ line_text self }
    {
        match self {
            Line7::BadHead => b"bad head\n",
            Line7::HeadTooLarge => b"head too large\n",
            Line7::EndedEarly => b"ended early\n",
            Line7::NoLength => b"no length\n",
            Line7::TwoLengths => b"two lengths\n",
            Line7::BodyTooLarge => b"body too large\n",
            Line7::NotImplemented => b"not implemented\n",
            Line7::NotFound => b"not found\n",
            Line7::NotAllowed => b"not allowed\n",
            Line7::Gone => b"gone\n",
            Line7::NotEntryType => b"not an entry type\n",
            Line7::Draft => b"draft\n",
            Line7::OtherId => b"other id\n",
            Line7::Clock => b"clock\n",
            Line7::EntryTooLarge => b"entry too large\n",
            Line7::Disk => b"disk\n",
            Line7::Changed => b"changed\n",
            Line7::Deleted => b"deleted\n",
            Line7::NoMemory => b"no memory\n",
        }
    }
}
