//! Reads a response.

ghost use Rattle.std.specs.Prelude.{◌≡◌, ◌≢◌, ◌⊎◌, ◌≤◌, ◌++◌, ℕ, List, length, take, drop, map, All, Option, Ok, Err, IfOk, IfSome, IsOkAnd, option_map, vec_len};
ghost use Rattle.atom_values.specs.Counts.{HasRisen};
ghost use Rattle.httparse.specs.Spans.{IsHeaderWithin, header_bytes};
ghost use Rattle.http_face.specs.Conn.{Reads, TakesAtMost};
ghost use Rattle.http_face.specs.Heard.{head_limit, field_limit};
ghost use Rattle.http_face.specs.Response.{answer_limit, answer_by, body_within, IsAnswered, IsBadResponse};

use crate::answer::read_up_to;
use crate::conn::Conn;
use crate::fault::ResponseFault;
use crate::fields::stated_extent;
use crate::head::{MAX_FIELDS, MAX_HEAD};
use crate::response_head::read_response_head;
use httparse::spans::{EMPTY_HEADER_SPAN, HeaderSpan, ResponseSpans};
use std::alloc::Global;

/// The most bytes of a response's body.
pub const MAX_ANSWER: usize = 67_108_864;

/// Returns the answer of the response that the bytes of a connection begin with: the body of a response with
/// status 200, and `None` for the statuses 404 and 410.
///
/// The body has the length that a `Content-Length` field states, and then bytes after it needn't be read. If
/// the response has no such field, the body goes on up to the end of the connection. At most 67,125,249 bytes
/// are read.
///
/// - `BadResponse` if the first 16,384 bytes don't begin with a head of at most 64 fields, for another
///   status, and at status 200 for a `Transfer-Encoding` field, two `Content-Length` fields, a length that
///   isn't 1 to 30 digits, and a body that is cut short of its length or has more than 67,108,864 bytes.
/// - `ConnFault` if a call failed. `NoMemory` if memory ran out. It hides no failed call.
///
/// The head is parsed anew after each read that didn't complete it. Memory for the body is taken as its bytes
/// come.
pub fn read_response<C: Conn>(alloc: Global, conn: &mut C) -> Result<Option<Vec<u8>>, ResponseFault>
    ensures answered { IfOk result (λ found. C.observable
        → IsAnswered (C.state conn.old).left (option_map (λ bytes. bytes.items) found)) }
    ensures only { (answer : Option (List ℕ)) → IsAnswered (C.state conn.old).left answer → C.observable
        → IsOkAnd result (λ found. option_map (λ bytes. bytes.items) found ≡ answer)
        ⊎ (result ≡ Err ResponseFault.ConnFault) ⊎ (result ≡ Err ResponseFault.NoMemory) }
    ensures bad { result ≡ Err ResponseFault.BadResponse → C.observable → IsBadResponse (C.state conn.old).left }
    ensures limit { IfOk result (λ found. IfSome found (λ bytes. vec_len bytes ≤ answer_limit)) }
    ensures most { C.observable → TakesAtMost 67_125_249 (C.state conn.old) (C.state conn.new) }
    ensures reads { Reads (C.state conn.old) (C.state conn.new) }
    ensures failed { result ≡ Err ResponseFault.ConnFault
        → HasRisen (C.state conn.old).faults (C.state conn.new).faults }
    ensures unfailed { result ≢ Err ResponseFault.ConnFault
        → (C.state conn.new).faults ≡ (C.state conn.old).faults }
{
    let mut buffer = vec![in alloc; 0; MAX_HEAD]?;
    let mut headers = [EMPTY_HEADER_SPAN; MAX_FIELDS];
    read_within(alloc, conn, &mut buffer, &mut headers)
}

/// Reads a response, with a buffer for its head and room for its fields.
fn read_within<C: Conn>(
    alloc: Global,
    conn: &mut C,
    buffer: &mut [u8],
    headers: &mut [HeaderSpan],
) -> Result<Option<Vec<u8>>, ResponseFault>
    requires room { length buffer.old ≡ head_limit }
    requires fields { field_limit ≤ length headers.old }
    ensures answered { IfOk result (λ found. C.observable
        → IsAnswered (C.state conn.old).left (option_map (λ bytes. bytes.items) found)) }
    ensures bad { result ≡ Err ResponseFault.BadResponse → C.observable → IsBadResponse (C.state conn.old).left }
    ensures limit { IfOk result (λ found. IfSome found (λ bytes. vec_len bytes ≤ answer_limit)) }
    ensures most { C.observable → TakesAtMost 67_125_249 (C.state conn.old) (C.state conn.new) }
    ensures reads { Reads (C.state conn.old) (C.state conn.new) }
    ensures failed { result ≡ Err ResponseFault.ConnFault
        → HasRisen (C.state conn.old).faults (C.state conn.new).faults }
    ensures unfailed { result ≢ Err ResponseFault.ConnFault
        → (C.state conn.new).faults ≡ (C.state conn.old).faults }
{
    let head = read_response_head(conn, buffer, headers)?;
    let spans = head.spans;
    answer_of(
        alloc,
        conn,
        &buffer[..head.filled],
        &headers[..spans.headers],
        spans,
    )
}

/// Makes the answer of a head. `bytes` are the bytes that were read: the head, and some after it.
fn answer_of<C: Conn>(
    alloc: Global,
    conn: &mut C,
    bytes: &[u8],
    headers: &[HeaderSpan],
    head: ResponseSpans,
) -> Result<Option<Vec<u8>>, ResponseFault>
    requires len { head.len ≤ length bytes.now }
    requires fields { All (IsHeaderWithin (length bytes.now)) headers.now }
    ensures answered { IfOk result (λ found. C.observable
        → answer_by head.code (map (header_bytes bytes.now) headers.now)
        (drop head.len bytes.now ++ (C.state conn.old).left) ≡ Ok (option_map (λ bytes. bytes.items) found)) }
    ensures bad { result ≡ Err ResponseFault.BadResponse → C.observable
        → answer_by head.code (map (header_bytes bytes.now) headers.now)
        (drop head.len bytes.now ++ (C.state conn.old).left) ≡ Err ResponseFault.BadResponse }
    ensures limit { IfOk result (λ found. IfSome found (λ bytes. vec_len bytes ≤ answer_limit)) }
    ensures most { C.observable → TakesAtMost 67_108_865 (C.state conn.old) (C.state conn.new) }
    ensures reads { Reads (C.state conn.old) (C.state conn.new) }
    ensures failed { result ≡ Err ResponseFault.ConnFault
        → HasRisen (C.state conn.old).faults (C.state conn.new).faults }
    ensures unfailed { result ≢ Err ResponseFault.ConnFault
        → (C.state conn.new).faults ≡ (C.state conn.old).faults }
{
    match head.code {
        200 => {
            let extent = stated_extent(bytes, headers)?;
            read_answer(alloc, conn, &bytes[head.len..], extent)
        }
        404 | 410 => Ok(None),
        _ => Err(ResponseFault::BadResponse),
    }
}

/// Reads a body of the stated length, or up to the end of the connection. It begins with the bytes that were
/// read ahead.
fn read_answer<C: Conn>(
    alloc: Global,
    conn: &mut C,
    ahead: &[u8],
    extent: Option<usize>,
) -> Result<Option<Vec<u8>>, ResponseFault>
    requires { IfSome extent (λ size. size ≤ answer_limit) }
    ensures answered { IfOk result (λ found. C.observable
        → body_within extent (ahead.now ++ (C.state conn.old).left)
        ≡ Ok (option_map (λ bytes. bytes.items) found)) }
    ensures bad { result ≡ Err ResponseFault.BadResponse → C.observable
        → body_within extent (ahead.now ++ (C.state conn.old).left) ≡ Err ResponseFault.BadResponse }
    ensures limit { IfOk result (λ found. IfSome found (λ bytes. vec_len bytes ≤ answer_limit)) }
    ensures most { C.observable → TakesAtMost 67_108_865 (C.state conn.old) (C.state conn.new) }
    ensures reads { Reads (C.state conn.old) (C.state conn.new) }
    ensures failed { result ≡ Err ResponseFault.ConnFault
        → HasRisen (C.state conn.old).faults (C.state conn.new).faults }
    ensures unfailed { result ≢ Err ResponseFault.ConnFault
        → (C.state conn.new).faults ≡ (C.state conn.old).faults }
{
    // Without a length, one byte past the limit tells that the body is too long.
    let most = extent.unwrap_or(MAX_ANSWER + 1);
    let body = read_up_to(alloc, conn, ahead, most)?;
    let fits = match extent {
        Some(size) => body.len() == size,
        None => body.len() <= MAX_ANSWER,
    };
    if fits {
        Ok(Some(body))
    } else {
        Err(ResponseFault::BadResponse)
    }
}
