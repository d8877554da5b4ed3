ghost use Rattle.std.specs.Prelude.{◌≡◌, ◌≢◌, ◌≤◌, ◌⊎◌, ◌++◌, length, drop, map, All, IfOk, IfErr, Ok, Err};
ghost use Rattle.atom_values.specs.Counts.{HasRisen};
ghost use Rattle.httparse.specs.Spans.{IsWithin, IsHeaderWithin, span_bytes, header_bytes};
ghost use Rattle.std.specs.Prelude.{codes};
ghost use Rattle.feed_disk.specs.Raised.{RisesAtMost};
ghost use Rattle.http_face.specs.Conn.{LastReadAfter, Reads, TakesAtMost};
ghost use Rattle.http_face.specs.Heard.{IsHeard, IsMisheard, head_limit, field_limit, verb_of, has_body, body_of, first_of, values_of};
ghost use Rattle.http_face.specs.Request.{RequestValue, IsRequest, body_limit};
ghost use Rattle.http_face.specs.Settled.{IsUnsettled, EndsWithinBody};

use crate::body::read_body;
use crate::conn::Conn;
use crate::fault::RequestFault;
use crate::fields::{find, stated_size};
use crate::head::{MAX_FIELDS, MAX_HEAD, read_head};
use atom_values::{Bytes, Copies, NoMemory};
use httparse::spans::{EMPTY_HEADER_SPAN, HeaderSpan, RequestSpans};
use std::alloc::Global;
use std::marker::Model;

/// The most bytes of a request's body.
pub const MAX_BODY: usize = 65_536;

/// The method of a request (RFC 9110 section 9). Case counts in its name.
#[derive(Clone, Copy, Debug, PartialEq, Eq)]
pub enum Verb {
    Get,
    Head,
    Post,
    Put,
    Delete,
    Options,
    Patch,
    /// Any other method.
    Other,
}

impl Verb {
    /// The method of this name.
    fn of(method: &[u8]) -> Verb
        ensures { result ≡ verb_of method.now }
    {
        if method == b"GET".as_slice() {
            Verb::Get
        } else if method == b"HEAD".as_slice() {
            Verb::Head
        } else if method == b"POST".as_slice() {
            Verb::Post
        } else if method == b"PUT".as_slice() {
            Verb::Put
        } else if method == b"DELETE".as_slice() {
            Verb::Delete
        } else if method == b"OPTIONS".as_slice() {
            Verb::Options
        } else if method == b"PATCH".as_slice() {
            Verb::Patch
        } else {
            Verb::Other
        }
    }

    /// Whether requests of the method have a body.
    fn has_body(self) -> bool
        ensures { result ≡ has_body self }
    {
        matches!(self, Verb::Post | Verb::Put)
    }
}

/// A request of a client. Its body has at most `MAX_BODY` bytes.
#[derive(Debug, Drop)]
pub struct Request {
    pub verb: Verb,
    /// The target as it is written (RFC 9112 section 3.2).
    pub target: Bytes,
    /// The value of the first `Content-Type` field, without the white space around it.
    pub media: Option<Bytes>,
    /// The body of a POST or PUT. Other methods have an empty body.
    pub body: Bytes,
}

impl Model for Request {
    ghost use Rattle.http_face.specs.Request.{RequestValue, IsRequest};

    ghost Value = { RequestValue };

    ghost view = { λ r. record { verb = r.verb; target = r.target; media = r.media; body = r.body } };

    ghost invariant = { λ r. IsRequest (record {
      verb = r.verb;
      target = r.target;
      media = r.media;
      body = r.body;
    }) };
}

impl Copies for Request {
    ghost use Rattle.http_face.specs.Request.{IsRequest};

    ghost rules = { IsRequest };

    fn copy(&self, alloc: Global) -> Result<Request, NoMemory> {
        Ok(Request {
            verb: self.verb,
            target: self.target.copy(alloc)?,
            media: self.media.copy(alloc)?,
            body: self.body.copy(alloc)?,
        })
    }
}

/// Returns the request that the bytes of a connection begin with. It reads at most 81,920 bytes, and may read
/// bytes after the request. It doesn't read again once the bytes decide the result, so a client may wait for
/// its reply with the connection open. The one exception: a target that isn't UTF-8 is refused only at its end.
///
/// - If the bytes begin with no head: `BadHead`, `HeadTooLarge` or `EndedEarly`. If two of them fit, either may come.
/// - If they begin with the head of a POST or PUT, the first that fits of `NoLength`, `TwoLengths`, `BadHead` (the
///   length isn't 1 to 30 digits), `BodyTooLarge` and `EndedEarly`.
/// - `ConnFault` if a call failed. `NoMemory` if memory ran out. It hides no failed call.
///
/// The head is parsed anew after each read that didn't complete it.
pub fn read_request<C: Conn>(alloc: Global, conn: &mut C) -> Result<Request, RequestFault>
    ensures heard { IfOk result (λ request. C.observable → IsHeard (C.state conn.old).left request) }
    ensures only { (request : RequestValue) → IsHeard (C.state conn.old).left request → C.observable
        → (result ≡ Ok request) ⊎ (result ≡ Err RequestFault.ConnFault)
        ⊎ (result ≡ Err RequestFault.NoMemory) }
    ensures rules { IfOk result IsRequest }
    ensures refused { IfErr result (λ fault. fault ≢ RequestFault.ConnFault → fault ≢ RequestFault.NoMemory
        → C.observable → IsMisheard (C.state conn.old).left fault) }
    ensures most { C.observable → TakesAtMost 81_920 (C.state conn.old) (C.state conn.new) }
    ensures read { RisesAtMost 81_920 (C.state conn.old).bytes_read (C.state conn.new).bytes_read }
    ensures needed { C.observable → LastReadAfter IsUnsettled (C.state conn.old) (C.state conn.new) }
    ensures reads { Reads (C.state conn.old) (C.state conn.new) }
    ensures failed { result ≡ Err RequestFault.ConnFault → HasRisen (C.state conn.old).faults
        (C.state conn.new).faults }
    ensures unfailed { result ≢ Err RequestFault.ConnFault
        → (C.state conn.new).faults ≡ (C.state conn.old).faults }
{
    let mut buffer = vec![in alloc; 0; MAX_HEAD]?;
    let mut headers = [EMPTY_HEADER_SPAN; MAX_FIELDS];
    read_within(alloc, conn, &mut buffer, &mut headers)
}

/// Reads a request, with a buffer for its head and room for its fields.
fn read_within<C: Conn>(
    alloc: Global,
    conn: &mut C,
    buffer: &mut [u8],
    headers: &mut [HeaderSpan],
) -> Result<Request, RequestFault>
    requires room { length buffer.old ≡ head_limit }
    requires fields { field_limit ≤ length headers.old }
    ensures heard { IfOk result (λ request. C.observable → IsHeard (C.state conn.old).left request) }
    ensures rules { IfOk result IsRequest }
    ensures refused { IfErr result (λ fault. fault ≢ RequestFault.ConnFault → fault ≢ RequestFault.NoMemory
        → C.observable → IsMisheard (C.state conn.old).left fault) }
    ensures most { C.observable → TakesAtMost 81_920 (C.state conn.old) (C.state conn.new) }
    ensures read { RisesAtMost 81_920 (C.state conn.old).bytes_read (C.state conn.new).bytes_read }
    ensures needed { C.observable → LastReadAfter IsUnsettled (C.state conn.old) (C.state conn.new) }
    ensures reads { Reads (C.state conn.old) (C.state conn.new) }
    ensures failed { result ≡ Err RequestFault.ConnFault → HasRisen (C.state conn.old).faults
        (C.state conn.new).faults }
    ensures unfailed { result ≢ Err RequestFault.ConnFault
        → (C.state conn.new).faults ≡ (C.state conn.old).faults }
{
    let head = read_head(alloc, conn, buffer, headers)?;
    let spans = head.spans;
    request_of(
        alloc,
        conn,
        &buffer[..head.filled],
        &headers[..spans.headers],
        spans,
    )
}

/// Makes the request of a head. `bytes` are the bytes that were read: the head, and some after it.
fn request_of<C: Conn>(
    alloc: Global,
    conn: &mut C,
    bytes: &[u8],
    headers: &[HeaderSpan],
    head: RequestSpans,
) -> Result<Request, RequestFault>
    requires room { length bytes.now ≤ head_limit }
    requires len { head.len ≤ length bytes.now }
    requires method { IsWithin (length bytes.now) head.method }
    requires path { IsWithin (length bytes.now) head.path }
    requires fields { All (IsHeaderWithin (length bytes.now)) headers.now }
    ensures verb { IfOk result (λ request. request.verb ≡ verb_of (span_bytes bytes.now head.method)) }
    ensures target { IfOk result (λ request. request.target ≡ span_bytes bytes.now head.path) }
    ensures media { IfOk result (λ request. request.media
        ≡ first_of (values_of (codes "content-type") (map (header_bytes bytes.now) headers.now))) }
    ensures body { IfOk result (λ request. C.observable
        → body_of (span_bytes bytes.now head.method) (map (header_bytes bytes.now) headers.now)
        (length (bytes.now ++ (C.state conn.old).left)) (drop head.len bytes.now ++ (C.state conn.old).left)
        ≡ Ok request.body) }
    ensures rules { IfOk result IsRequest }
    ensures refused { IfErr result (λ fault. fault ≢ RequestFault.ConnFault → fault ≢ RequestFault.NoMemory
        → C.observable → body_of (span_bytes bytes.now head.method) (map (header_bytes bytes.now) headers.now)
        (length (bytes.now ++ (C.state conn.old).left)) (drop head.len bytes.now ++ (C.state conn.old).left)
        ≡ Err fault) }
    ensures most { C.observable → TakesAtMost body_limit (C.state conn.old) (C.state conn.new) }
    ensures read { RisesAtMost body_limit (C.state conn.old).bytes_read (C.state conn.new).bytes_read }
    ensures needed { C.observable → LastReadAfter (λ taken. EndsWithinBody (span_bytes bytes.now head.method)
        (map (header_bytes bytes.now) headers.now) (drop head.len bytes.now ++ taken))
        (C.state conn.old) (C.state conn.new) }
    ensures reads { Reads (C.state conn.old) (C.state conn.new) }
    ensures failed { result ≡ Err RequestFault.ConnFault → HasRisen (C.state conn.old).faults
        (C.state conn.new).faults }
    ensures unfailed { result ≢ Err RequestFault.ConnFault
        → (C.state conn.new).faults ≡ (C.state conn.old).faults }
{
    let verb = Verb::of(head.method.of(bytes));
    let target = Bytes::of(alloc, head.path.of(bytes))?;
    let media = media_of(alloc, bytes, headers)?;
    if !verb.has_body() {
        let body = Bytes::of(alloc, b"")?;
        return Ok(Request {
            verb,
            target,
            media,
            body,
        });
    }
    let size = stated_size(bytes, headers)?;
    let body = read_body(alloc, conn, head.len, &bytes[head.len..], size)?;
    Ok(Request {
        verb,
        target,
        media,
        body,
    })
}

/// The media type that the fields state.
fn media_of(alloc: Global, bytes: &[u8], headers: &[HeaderSpan]) -> Result<Option<Bytes>, NoMemory>
    requires { All (IsHeaderWithin (length bytes.now)) headers.now }
    ensures { IfOk result (λ media. media
        ≡ first_of (values_of (codes "content-type") (map (header_bytes bytes.now) headers.now))) }
{
    match find(bytes, headers, b"content-type") {
        Some((value, _)) => Ok(Some(Bytes::of(alloc, value)?)),
        None => Ok(None),
    }
}
