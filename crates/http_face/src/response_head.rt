//! The head of a response.

ghost use Rattle.std.specs.Prelude.{◌≡◌, ◌≢◌, ◌≤◌, ◌++◌, ℕ, List, length, take, Err, IfOk, IfErr, IfSome, IsNone, OnErr};
ghost use Rattle.atom_values.specs.Counts.{HasRisen};
ghost use Rattle.httparse.specs.Spans.{IsResponseWithin, IsResponseOf};
ghost use Rattle.http_face.specs.Conn.{Reads, TakesAtMost};
ghost use Rattle.http_face.specs.Heard.{head_limit, field_limit};
ghost use Rattle.http_face.specs.Response.{HasNoResponseHead};

use crate::conn::Conn;
use crate::fault::ResponseFault;
use crate::fill::read_behind;
use crate::head::MAX_FIELDS;
use httparse::spans::{HeaderSpan, ResponseSpans, parse_response};
use httparse::{Error, Status};

/// A head in a buffer.
#[derive(Clone, Copy, Debug)]
pub(crate) struct ReadResponseHead {
    pub(crate) spans: ResponseSpans,
    /// How many bytes were read: those of the head, and some after it.
    pub(crate) filled: usize,
}

/// Reads the head of a response into the buffer.
pub(crate) fn read_response_head<C: Conn>(
    conn: &mut C,
    buffer: &mut [u8],
    headers: &mut [HeaderSpan],
) -> Result<ReadResponseHead, ResponseFault>
    requires room { length buffer.old ≡ head_limit }
    requires fields { field_limit ≤ length headers.old }
    ensures filled { IfOk result (λ head. head.filled ≤ length buffer.new) }
    ensures within { IfOk result (λ head.
        IsResponseWithin (take head.filled buffer.new) headers.new head.spans) }
    ensures complete { IfOk result (λ head.
        IsResponseOf (take head.filled buffer.new) headers.new head.spans) }
    ensures few { IfOk result (λ head. head.spans.headers ≤ field_limit) }
    ensures bytes { IfOk result (λ head. C.observable → (C.state conn.old).left
        ≡ take head.filled buffer.new ++ (C.state conn.new).left) }
    ensures bad { result ≡ Err ResponseFault.BadResponse
        → C.observable → HasNoResponseHead (C.state conn.old).left }
    ensures most { C.observable → TakesAtMost head_limit (C.state conn.old) (C.state conn.new) }
    ensures reads { Reads (C.state conn.old) (C.state conn.new) }
    ensures failed { result ≡ Err ResponseFault.ConnFault
        → HasRisen (C.state conn.old).faults (C.state conn.new).faults }
    ensures unfailed { result ≢ Err ResponseFault.ConnFault
        → (C.state conn.new).faults ≡ (C.state conn.old).faults }
{
    let mut filled = 0;
    while filled < buffer.len() {
        let count = read_behind(conn, buffer, filled)?;
        if count == 0 {
            return Err(ResponseFault::BadResponse);
        }
        filled += count;
        if let Some(spans) = parse(&buffer[..filled], headers)? {
            return Ok(ReadResponseHead { spans, filled });
        }
    }
    Err(ResponseFault::BadResponse)
}

/// Parses the head that the bytes begin with. `None`: it isn't there yet.
fn parse(bytes: &[u8], headers: &mut [HeaderSpan]) -> Result<Option<ResponseSpans>, ResponseFault>
    requires short { length bytes.now ≤ head_limit }
    requires fields { field_limit ≤ length headers.old }
    ensures within { IfOk result (λ found. IfSome found (IsResponseWithin bytes.now headers.new)) }
    ensures complete { IfOk result (λ found. IfSome found (IsResponseOf bytes.now headers.new)) }
    ensures few { IfOk result (λ found. IfSome found (λ spans. spans.headers ≤ field_limit)) }
    ensures unfinished { IfOk result (λ found. IsNone found → HasNoResponseHead bytes.now) }
    ensures only_errors { IfErr result (λ fault. fault ≡ ResponseFault.BadResponse) }
    ensures refused { OnErr result ((more : List ℕ) → HasNoResponseHead (bytes.now ++ more)) }
{
    match parse_response(bytes, headers) {
        Ok(Status::Complete(spans)) => {
            if spans.headers > MAX_FIELDS {
                Err(ResponseFault::BadResponse)
            } else {
                Ok(Some(spans))
            }
        }
        Ok(Status::Partial) => Ok(None),
        Err(error) => match error {
            Error::TooManyHeaders => Ok(None),
            _ => Err(ResponseFault::BadResponse),
        },
    }
}
