//! The body of a response.

ghost use Rattle.std.specs.Prelude.{◌≡◌, ◌≢◌, ◌+◌, ◌≤◌, ◌<◌, ◌++◌, [], length, take, Err, IfOk, vec_len};
ghost use Rattle.atom_values.specs.Counts.{HasRisen};
ghost use Rattle.http_face.specs.Conn.{Reads, TakesAtMost};

use crate::conn::Conn;
use crate::fault::ResponseFault;
use std::alloc::{AllocError, Global};

/// The most bytes that are read at a time.
const CHUNK: usize = 65_536;

/// Reads at most `most` bytes, and fewer only if the connection ends before. They begin with the bytes that
/// were read ahead. Memory is taken as the bytes come, and each byte is copied a fixed number of times on
/// average.
pub(crate) fn read_up_to<C: Conn>(
    alloc: Global,
    conn: &mut C,
    ahead: &[u8],
    most: usize,
) -> Result<Vec<u8>, ResponseFault>
    ensures bytes { IfOk result (λ body. C.observable
        → body.items ≡ take most (ahead.now ++ (C.state conn.old).left)) }
    ensures within { IfOk result (λ body. vec_len body ≤ most) }
    ensures only_errors { result ≢ Err ResponseFault.BadResponse }
    ensures most { C.observable → TakesAtMost most (C.state conn.old) (C.state conn.new) }
    ensures reads { Reads (C.state conn.old) (C.state conn.new) }
    ensures failed { result ≡ Err ResponseFault.ConnFault
        → HasRisen (C.state conn.old).faults (C.state conn.new).faults }
    ensures unfailed { result ≢ Err ResponseFault.ConnFault
        → (C.state conn.new).faults ≡ (C.state conn.old).faults }
{
    let start = ahead.len().min(most);
    let body = Vec::from_slice(alloc, &ahead[..start])?;
    let mut chunk = chunk_of(alloc)?;
    read_on(conn, body, &mut chunk, most)
}

/// The room for the bytes of one read.
fn chunk_of(alloc: Global) -> Result<Vec<u8>, AllocError>
    ensures { IfOk result (λ chunk. 0 < vec_len chunk) }
{
    vec![in alloc; 0; CHUNK]
}

/// Reads after the bytes of the body until it has `most` bytes or the connection ends.
fn read_on<C: Conn>(
    conn: &mut C,
    mut body: Vec<u8>,
    chunk: &mut [u8],
    most: usize,
) -> Result<Vec<u8>, ResponseFault>
    requires room { 0 < length chunk.old }
    requires short { vec_len body ≤ most }
    ensures bytes { IfOk result (λ whole. C.observable
        → whole.items ≡ take most (body.items ++ (C.state conn.old).left)) }
    ensures within { IfOk result (λ whole. vec_len whole ≤ most) }
    ensures only_errors { result ≢ Err ResponseFault.BadResponse }
    ensures most { C.observable → TakesAtMost most (C.state conn.old) (C.state conn.new) }
    ensures reads { Reads (C.state conn.old) (C.state conn.new) }
    ensures failed { result ≡ Err ResponseFault.ConnFault
        → HasRisen (C.state conn.old).faults (C.state conn.new).faults }
    ensures unfailed { result ≢ Err ResponseFault.ConnFault
        → (C.state conn.new).faults ≡ (C.state conn.old).faults }
{
    while body.len() < most {
        let room = chunk.len().min(most - body.len());
        let count = append(conn, &mut body, &mut chunk[..room])?;
        if count == 0 {
            return Ok(body);
        }
    }
    Ok(body)
}

/// Reads once, appends the bytes to the body, and returns how many were read.
fn append<C: Conn>(
    conn: &mut C,
    body: &mut Vec<u8>,
    chunk: &mut [u8],
) -> Result<usize, ResponseFault>
    ensures within { IfOk result (λ count. count ≤ length chunk.old) }
    ensures len { IfOk result (λ count. vec_len body.new ≡ vec_len body.old + count) }
    ensures bytes { IfOk result (λ count. C.observable → body.old.items ++ (C.state conn.old).left
        ≡ body.new.items ++ (C.state conn.new).left) }
    ensures end { IfOk result (λ count. C.observable → count ≡ 0 → 0 < length chunk.old
        → (C.state conn.old).left ≡ []) }
    ensures only_errors { result ≢ Err ResponseFault.BadResponse }
    ensures most { C.observable → TakesAtMost (length chunk.old) (C.state conn.old) (C.state conn.new) }
    ensures read { IfOk result (λ count. C.observable → TakesAtMost count (C.state conn.old) (C.state conn.new)) }
    ensures reads { Reads (C.state conn.old) (C.state conn.new) }
    ensures failed { result ≡ Err ResponseFault.ConnFault
        → HasRisen (C.state conn.old).faults (C.state conn.new).faults }
    ensures unfailed { result ≢ Err ResponseFault.ConnFault
        → (C.state conn.new).faults ≡ (C.state conn.old).faults }
{
    let count = conn.read(chunk)?;
    body.extend_from_slice(&chunk[..count])?;
    Ok(count)
}
