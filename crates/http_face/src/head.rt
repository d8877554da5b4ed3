//! The head of a request.

ghost use Rattle.std.specs.Prelude.{◌≡◌, ◌≢◌, ◌<◌, ◌≤◌, ◌++◌, ℕ, List, length, take, Err, IfOk, IfErr, IfSome, IsNone, OnOk};
ghost use Rattle.atom_values.specs.Counts.{HasRisen};
ghost use Rattle.feed_disk.specs.Raised.{RisesAtMost};
ghost use Rattle.httparse.specs.Spans.{IsRequestWithin, IsRequestOf, RequestOverflows};
ghost use Rattle.http_face.specs.Conn.{LastReadAfter, Reads, TakesAtMost};
ghost use Rattle.http_face.specs.Heard.{head_limit, field_limit, HasNoHead, IsHeadFault};
ghost use Rattle.http_face.specs.Settled.{IsUnsettled};

use crate::conn::Conn;
use crate::fault::RequestFault;
use crate::fill::read_behind;
use httparse::spans::{EMPTY_HEADER_SPAN, HeaderSpan, RequestSpans, parse_request};
use httparse::{Error, Status};
use std::alloc::Global;

/// The most bytes of a head.
pub(crate) const MAX_HEAD: usize = 16_384;

/// The most fields of a head.
pub(crate) const MAX_FIELDS: usize = 64;

/// The room for fields: no head of `MAX_HEAD` bytes has more.
const FIELD_ROOM: usize = 5_461;

/// A head in a buffer.
#[derive(Clone, Copy, Debug)]
pub(crate) struct ReadHead {
    pub(crate) spans: RequestSpans,
    /// How many bytes were read: those of the head, and some after it.
    pub(crate) filled: usize,
}

/// Reads the head of a request into the buffer.
pub(crate) fn read_head<C: Conn>(
    alloc: Global,
    conn: &mut C,
    buffer: &mut [u8],
    headers: &mut [HeaderSpan],
) -> Result<ReadHead, RequestFault>
    requires room { length buffer.old ≡ head_limit }
    requires fields { field_limit ≤ length headers.old }
    ensures filled { IfOk result (λ head. head.filled ≤ length buffer.new) }
    ensures within { IfOk result (λ head.
        IsRequestWithin (take head.filled buffer.new) headers.new head.spans) }
    ensures complete { IfOk result (λ head.
        IsRequestOf (take head.filled buffer.new) headers.new head.spans) }
    ensures few { IfOk result (λ head. head.spans.headers ≤ field_limit) }
    ensures bytes { IfOk result (λ head. C.observable → (C.state conn.old).left
        ≡ take head.filled buffer.new ++ (C.state conn.new).left) }
    ensures refused { IfErr result (λ fault. fault ≢ RequestFault.ConnFault → fault ≢ RequestFault.NoMemory
        → C.observable → HasNoHead (C.state conn.old).left × IsHeadFault (C.state conn.old).left fault) }
    ensures most { C.observable → TakesAtMost head_limit (C.state conn.old) (C.state conn.new) }
    ensures read { RisesAtMost head_limit (C.state conn.old).bytes_read (C.state conn.new).bytes_read }
    ensures needed { C.observable → LastReadAfter IsUnsettled (C.state conn.old) (C.state conn.new) }
    ensures reads { Reads (C.state conn.old) (C.state conn.new) }
    ensures failed { result ≡ Err RequestFault.ConnFault → HasRisen (C.state conn.old).faults
        (C.state conn.new).faults }
    ensures unfailed { result ≢ Err RequestFault.ConnFault
        → (C.state conn.new).faults ≡ (C.state conn.old).faults }
{
    let mut filled = 0;
    while filled < buffer.len() {
        let count = read_behind(conn, buffer, filled)?;
        if count == 0 {
            return Err(RequestFault::EndedEarly {
                read: filled as u64,
            });
        }
        filled += count;
        if let Some(spans) = parse(alloc, &buffer[..filled], headers)? {
            return Ok(ReadHead { spans, filled });
        }
    }
    Err(RequestFault::HeadTooLarge)
}

/// Parses the head that the bytes begin with. `None`: it isn't there yet.
fn parse(
    alloc: Global,
    bytes: &[u8],
    headers: &mut [HeaderSpan],
) -> Result<Option<RequestSpans>, RequestFault>
    requires short { length bytes.now ≤ head_limit }
    requires fields { field_limit ≤ length headers.old }
    ensures within { IfOk result (λ found. IfSome found (IsRequestWithin bytes.now headers.new)) }
    ensures complete { IfOk result (λ found. IfSome found (IsRequestOf bytes.now headers.new)) }
    ensures few { IfOk result (λ found. IfSome found (λ spans. spans.headers ≤ field_limit)) }
    ensures unfinished { IfOk result (λ found. IsNone found → HasNoHead bytes.now) }
    ensures unsettled { IfOk result (λ found. IsNone found → length bytes.now < head_limit
        → IsUnsettled bytes.now) }
    ensures refused { IfErr result (λ fault. fault ≢ RequestFault.NoMemory → (more : List ℕ)
        → HasNoHead (bytes.now ++ more) × IsHeadFault (bytes.now ++ more) fault) }
    ensures only_errors { IfErr result (λ fault. fault ≢ RequestFault.ConnFault) }
{
    match parse_request(bytes, headers) {
        Ok(Status::Complete(spans)) => {
            if spans.headers > MAX_FIELDS {
                Err(RequestFault::HeadTooLarge)
            } else {
                Ok(Some(spans))
            }
        }
        Ok(Status::Partial) => Ok(None),
        Err(error) => match error {
            Error::TooManyHeaders => parse_many(alloc, bytes),
            _ => Err(RequestFault::BadHead),
        },
    }
}

/// Parses the bytes of a head that has more fields than there was room for: `HeadTooLarge` once it is there, and
/// `None` before. The room for all fields is made here, because few requests need it.
fn parse_many(alloc: Global, bytes: &[u8]) -> Result<Option<RequestSpans>, RequestFault>
    requires short { length bytes.now ≤ head_limit }
    ensures none { IfOk result IsNone }
    ensures unsettled { OnOk result (RequestOverflows field_limit bytes.now → length bytes.now < head_limit
        → IsUnsettled bytes.now) }
    ensures refused { IfErr result (λ fault. fault ≢ RequestFault.NoMemory → (more : List ℕ)
        → HasNoHead (bytes.now ++ more) × IsHeadFault (bytes.now ++ more) fault) }
    ensures only_errors { IfErr result (λ fault. fault ≢ RequestFault.ConnFault) }
{
    let mut headers = vec![in alloc; EMPTY_HEADER_SPAN; FIELD_ROOM]?;
    match parse_request(bytes, &mut headers) {
        Ok(Status::Complete(spans)) => {
            if spans.headers > MAX_FIELDS {
                Err(RequestFault::HeadTooLarge)
            } else {
                Ok(None)
            }
        }
        Ok(Status::Partial) => Ok(None),
        Err(error) => match error {
            Error::TooManyHeaders => Ok(None),
            _ => Err(RequestFault::BadHead),
        },
    }
}
