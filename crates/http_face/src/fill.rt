//! Reads into a buffer after the bytes that it has.

ghost use Rattle.std.specs.Prelude.{◌≡◌, ◌+◌, ◌-◌, ◌≤◌, ◌<◌, ◌++◌, [], length, take, IfOk, OnErr};
ghost use Rattle.atom_values.specs.Counts.{HasCause, counted};
ghost use Rattle.feed_disk.specs.Raised.{RisesAtMost, raised};
ghost use Rattle.http_face.specs.Conn.{LastReadAfter, Reads, TakesAtMost};

use crate::conn::Conn;
use atom_values::Failed;

/// Reads once after the first `filled` bytes of the buffer, and returns how many bytes were read.
pub(crate) fn read_behind<C: Conn>(
    conn: &mut C,
    buffer: &mut [u8],
    filled: usize,
) -> Result<usize, Failed>
    requires { filled < length buffer.old }
    ensures within { IfOk result (λ count. filled + count ≤ length buffer.old) }
    ensures bytes { IfOk result (λ count. C.observable → take filled buffer.old ++ (C.state conn.old).left
        ≡ take (filled + count) buffer.new ++ (C.state conn.new).left) }
    ensures end { IfOk result (λ count. C.observable → count ≡ 0 → (C.state conn.old).left ≡ []) }
    ensures most { IfOk result (λ count. C.observable → TakesAtMost count (C.state conn.old) (C.state conn.new)) }
    ensures err { OnErr result (C.observable → (C.state conn.new).left ≡ (C.state conn.old).left) }
    ensures read { IfOk result (λ count. (C.state conn.new).bytes_read
        ≡ raised (C.state conn.old).bytes_read count) }
    ensures unread { OnErr result ((C.state conn.new).bytes_read ≡ (C.state conn.old).bytes_read) }
    ensures before { C.observable → (C.state conn.new).before_read ≡ (C.state conn.old).left }
    ensures reads { Reads (C.state conn.old) (C.state conn.new) }
    ensures counts { HasCause (C.state conn.old).faults (C.state conn.new).faults result }
{
    conn.read(&mut buffer[filled..])
}

/// Reads after the first `filled` bytes until the buffer is full or the connection ends, and returns how many bytes
/// the buffer has then.
pub(crate) fn fill_up<C: Conn>(
    conn: &mut C,
    buffer: &mut [u8],
    filled: usize,
) -> Result<usize, Failed>
    requires { filled ≤ length buffer.old }
    ensures within { IfOk result (λ full. full ≤ length buffer.old) }
    ensures bytes { IfOk result (λ full. C.observable → take filled buffer.old ++ (C.state conn.old).left
        ≡ take full buffer.new ++ (C.state conn.new).left) }
    ensures end { IfOk result (λ full. C.observable → full < length buffer.old → (C.state conn.new).left ≡ []) }
    ensures most { C.observable → TakesAtMost (length buffer.old - filled) (C.state conn.old) (C.state conn.new) }
    ensures read { RisesAtMost (length buffer.old - filled) (C.state conn.old).bytes_read
        (C.state conn.new).bytes_read }
    ensures needed { C.observable → LastReadAfter (λ before. filled + length before < length buffer.old)
        (C.state conn.old) (C.state conn.new) }
    ensures reads { Reads (C.state conn.old) (C.state conn.new) }
    ensures counts { HasCause (C.state conn.old).faults (C.state conn.new).faults result }
{
    let mut full = filled;
    while full < buffer.len() {
        let count = read_behind(conn, buffer, full)?;
        if count == 0 {
            return Ok(full);
        }
        full += count;
    }
    Ok(full)
}
