//! The body of a request.

ghost use Rattle.std.specs.Prelude.{◌≡◌, ◌≢◌, ◌+◌, ◌<◌, ◌≤◌, ◌++◌, length, Ok, Err, IfOk, IfErr, OnOk};
ghost use Rattle.atom_values.specs.Counts.{HasRisen};
ghost use Rattle.feed_disk.specs.Raised.{RisesAtMost};
ghost use Rattle.http_face.specs.Conn.{LastReadAfter, Reads, TakesAtMost};
ghost use Rattle.http_face.specs.Heard.{head_limit, sized_body};
ghost use Rattle.http_face.specs.Request.{body_limit};

use crate::conn::Conn;
use crate::fault::RequestFault;
use crate::fill::fill_up;
use atom_values::Bytes;
use std::alloc::Global;

/// Reads a body of `size` bytes, which begins with the bytes that were read ahead. Before these, `before` bytes were
/// read.
pub(crate) fn read_body<C: Conn>(
    alloc: Global,
    conn: &mut C,
    before: usize,
    ahead: &[u8],
    size: usize,
) -> Result<Bytes, RequestFault>
    requires head { before + length ahead.now ≤ head_limit }
    requires size { size ≤ body_limit }
    ensures heard { IfOk result (λ body. C.observable
        → sized_body size (before + length (ahead.now ++ (C.state conn.old).left))
        (ahead.now ++ (C.state conn.old).left) ≡ Ok body) }
    ensures length { IfOk result (λ body. length body ≡ size) }
    ensures refused { IfErr result (λ fault. fault ≢ RequestFault.ConnFault → fault ≢ RequestFault.NoMemory
        → C.observable → sized_body size (before + length (ahead.now ++ (C.state conn.old).left))
        (ahead.now ++ (C.state conn.old).left) ≡ Err fault) }
    ensures most { C.observable → TakesAtMost size (C.state conn.old) (C.state conn.new) }
    ensures read { RisesAtMost size (C.state conn.old).bytes_read (C.state conn.new).bytes_read }
    ensures needed { C.observable → LastReadAfter (λ taken. length ahead.now + length taken < size)
        (C.state conn.old) (C.state conn.new) }
    ensures reads { Reads (C.state conn.old) (C.state conn.new) }
    ensures failed { result ≡ Err RequestFault.ConnFault → HasRisen (C.state conn.old).faults
        (C.state conn.new).faults }
    ensures unfailed { result ≢ Err RequestFault.ConnFault
        → (C.state conn.new).faults ≡ (C.state conn.old).faults }
{
    let mut body = vec![in alloc; 0; size]?;
    read_into(conn, before, ahead, &mut body)?;
    Ok(Bytes::from_vec(body))
}

/// Reads a body of the length of `body` into it.
fn read_into<C: Conn>(
    conn: &mut C,
    before: usize,
    ahead: &[u8],
    body: &mut [u8],
) -> Result<(), RequestFault>
    requires head { before + length ahead.now ≤ head_limit }
    requires size { length body.old ≤ body_limit }
    ensures heard { OnOk result (C.observable
        → sized_body (length body.old) (before + length (ahead.now ++ (C.state conn.old).left))
        (ahead.now ++ (C.state conn.old).left) ≡ Ok body.new) }
    ensures refused { IfErr result (λ fault. fault ≢ RequestFault.ConnFault → C.observable
        → sized_body (length body.old) (before + length (ahead.now ++ (C.state conn.old).left))
        (ahead.now ++ (C.state conn.old).left) ≡ Err fault) }
    ensures only_errors { result ≢ Err RequestFault.NoMemory }
    ensures most { C.observable → TakesAtMost (length body.old) (C.state conn.old) (C.state conn.new) }
    ensures read { RisesAtMost (length body.old) (C.state conn.old).bytes_read (C.state conn.new).bytes_read }
    ensures needed { C.observable → LastReadAfter (λ taken. length ahead.now + length taken < length body.old)
        (C.state conn.old) (C.state conn.new) }
    ensures reads { Reads (C.state conn.old) (C.state conn.new) }
    ensures failed { result ≡ Err RequestFault.ConnFault → HasRisen (C.state conn.old).faults
        (C.state conn.new).faults }
    ensures unfailed { result ≢ Err RequestFault.ConnFault
        → (C.state conn.new).faults ≡ (C.state conn.old).faults }
{
    let start = ahead.len().min(body.len());
    body[..start].copy_from_slice(&ahead[..start]);
    let filled = fill_up(conn, body, start)?;
    if filled < body.len() {
        return Err(RequestFault::EndedEarly {
            read: (before + filled) as u64,
        });
    }
    Ok(())
}
