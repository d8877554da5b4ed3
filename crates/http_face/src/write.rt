ghost use Rattle.std.specs.Prelude.{◌≡◌, ◌<◌, ◌+◌, [], ◌++◌, length, IfOk, IfErr, OnOk, Some, IsSome, codes};
ghost use Rattle.atom_values.specs.Counts.{HasCause};
ghost use Rattle.http.specs.StatusCode.{reason_phrase};
ghost use Rattle.http_face.specs.Conn.{Writes};
ghost use Rattle.http_face.specs.Put.{Puts, IsCut, counted_by, put_state, nothing_waits};
ghost use Rattle.http_face.specs.Reply.{HasPhrase, IsCutOff, reply_bytes, status_line, header, optional_header, fields_text};

use crate::conn::Conn;
use crate::fault::CutOff;
use crate::reply::{Allow, Reply};
use crate::waiting::{ROOM, Waiting};
use atom_values::Bytes;
use http::StatusCode;
use itoa::Buffer;

/// Writes the reply to a connection on which it was begun. `CutOff` if a call failed.
///
/// It takes no memory. A head of at most 2,048 bytes is written in one call, together with the body if 2,048 bytes have
/// room for both. Otherwise the body has a call of its own. If a call takes only a part, further calls write the rest.
pub fn write_reply<C: Conn>(conn: &mut C, reply: &Reply) -> Result<(), CutOff>
    requires begun { IsSome (C.state conn.old).begun }
    requires status { HasPhrase reply.now.status }
    ensures whole { OnOk result (C.observable
        → (C.state conn.new).sent ≡ (C.state conn.old).sent ++ reply_bytes reply.now) }
    ensures cut { IfErr result (λ cut. IsCutOff C.observable (reply_bytes reply.now) cut.sent
        (C.state conn.old).sent (C.state conn.new).sent) }
    ensures writes { Writes (C.state conn.old) (C.state conn.new) }
    ensures counts { HasCause (C.state conn.old).faults (C.state conn.new).faults result }
{
    let mut waiting = Waiting {
        buffer: [0; ROOM],
        filled: 0,
        sent: 0,
    };
    put_status_line(conn, &mut waiting, reply.status)?;
    put_fields(conn, &mut waiting, reply)?;
    put(conn, &mut waiting, reply.body.bytes())?;
    flush(conn, &mut waiting)
}

/// Puts the status line.
fn put_status_line<C: Conn>(conn: &mut C, waiting: &mut Waiting, status: u16) -> Result<(), CutOff>
    requires begun { IsSome (C.state conn.old).begun }
    requires phrase { HasPhrase status }
    ensures puts { Puts C.observable (status_line status) (put_state (C.state conn.old).sent waiting.old)
        (put_state (C.state conn.new).sent waiting.new) result }
    ensures writes { Writes (C.state conn.old) (C.state conn.new) }
    ensures counts { HasCause (C.state conn.old).faults (C.state conn.new).faults result }
{
    let mut digits = Buffer::new();
    put(conn, waiting, b"HTTP/1.1 ")?;
    put(conn, waiting, digits.format(status).as_bytes())?;
    put(conn, waiting, b" ")?;
    put(conn, waiting, phrase(status))?;
    put(conn, waiting, b"\r\n")
}

/// Puts the fields of the head, and the empty line.
fn put_fields<C: Conn>(conn: &mut C, waiting: &mut Waiting, reply: &Reply) -> Result<(), CutOff>
    requires begun { IsSome (C.state conn.old).begun }
    ensures puts { Puts C.observable (fields_text reply.now) (put_state (C.state conn.old).sent waiting.old)
        (put_state (C.state conn.new).sent waiting.new) result }
    ensures writes { Writes (C.state conn.old) (C.state conn.new) }
    ensures counts { HasCause (C.state conn.old).faults (C.state conn.new).faults result }
{
    let mut digits = Buffer::new();
    let length = digits.format(reply.body.bytes().len()).as_bytes();
    put_header(conn, waiting, b"Content-Type", reply.media.text())?;
    put_header(conn, waiting, b"Content-Length", length)?;
    put_location(conn, waiting, &reply.location)?;
    put(conn, waiting, Allow::header(reply.allow))?;
    put(conn, waiting, b"Connection: close\r\n\r\n")
}

/// Puts the address of a member that was made.
fn put_location<C: Conn>(
    conn: &mut C,
    waiting: &mut Waiting,
    address: &Option<Bytes>,
) -> Result<(), CutOff>
    requires begun { IsSome (C.state conn.old).begun }
    ensures puts { Puts C.observable (optional_header (codes "Location") address.now)
        (put_state (C.state conn.old).sent waiting.old)
        (put_state (C.state conn.new).sent waiting.new) result }
    ensures writes { Writes (C.state conn.old) (C.state conn.new) }
    ensures counts { HasCause (C.state conn.old).faults (C.state conn.new).faults result }
{
    match address {
        Some(address) => put_header(conn, waiting, b"Location", address.slice()),
        None => Ok(()),
    }
}

/// Puts a line of the head.
fn put_header<C: Conn>(
    conn: &mut C,
    waiting: &mut Waiting,
    name: &[u8],
    value: &[u8],
) -> Result<(), CutOff>
    requires begun { IsSome (C.state conn.old).begun }
    ensures puts { Puts C.observable (header name.now value.now) (put_state (C.state conn.old).sent waiting.old)
        (put_state (C.state conn.new).sent waiting.new) result }
    ensures writes { Writes (C.state conn.old) (C.state conn.new) }
    ensures counts { HasCause (C.state conn.old).faults (C.state conn.new).faults result }
{
    put(conn, waiting, name)?;
    put(conn, waiting, b": ")?;
    put(conn, waiting, value)?;
    put(conn, waiting, b"\r\n")
}

/// The phrase of a status.
fn phrase(status: u16) -> &'static [u8]
    requires { HasPhrase status }
    ensures { reason_phrase status ≡ Some result.now }
{
    match StatusCode::from_u16(status) {
        Ok(code) => match code.canonical_reason() {
            Some(phrase) => phrase.as_bytes(),
            None => unreachable!(),
        },
        Err(_) => unreachable!(),
    }
}

/// Puts a part after what waits. A part for which the buffer has no room is sent from where it lies.
fn put<C: Conn>(conn: &mut C, waiting: &mut Waiting, part: &[u8]) -> Result<(), CutOff>
    requires begun { IsSome (C.state conn.old).begun }
    ensures puts { Puts C.observable part.now (put_state (C.state conn.old).sent waiting.old)
        (put_state (C.state conn.new).sent waiting.new) result }
    ensures writes { Writes (C.state conn.old) (C.state conn.new) }
    ensures counts { HasCause (C.state conn.old).faults (C.state conn.new).faults result }
{
    make_room(conn, waiting, part.len())?;
    if part.len() > ROOM - waiting.filled {
        return send(conn, waiting, part);
    }
    let end = waiting.filled + part.len();
    waiting.buffer[waiting.filled..end].copy_from_slice(part);
    waiting.filled = end;
    Ok(())
}

/// Sends what waits, if `size` bytes don't fit after it.
fn make_room<C: Conn>(conn: &mut C, waiting: &mut Waiting, size: usize) -> Result<(), CutOff>
    requires begun { IsSome (C.state conn.old).begun }
    ensures puts { Puts C.observable [] (put_state (C.state conn.old).sent waiting.old)
        (put_state (C.state conn.new).sent waiting.new) result }
    ensures writes { Writes (C.state conn.old) (C.state conn.new) }
    ensures counts { HasCause (C.state conn.old).faults (C.state conn.new).faults result }
    ensures fits { OnOk result (ROOM < size + waiting.new.filled → waiting.new.filled ≡ 0) }
{
    if size > ROOM - waiting.filled {
        flush(conn, waiting)
    } else {
        Ok(())
    }
}

/// Sends what waits.
fn flush<C: Conn>(conn: &mut C, waiting: &mut Waiting) -> Result<(), CutOff>
    requires begun { IsSome (C.state conn.old).begun }
    ensures puts { Puts C.observable [] (put_state (C.state conn.old).sent waiting.old)
        (put_state (C.state conn.new).sent waiting.new) result }
    ensures writes { Writes (C.state conn.old) (C.state conn.new) }
    ensures counts { HasCause (C.state conn.old).faults (C.state conn.new).faults result }
    ensures empty { OnOk result (waiting.new.filled ≡ 0) }
{
    waiting.sent = write_all(conn, &waiting.buffer[..waiting.filled], waiting.sent)?;
    waiting.filled = 0;
    Ok(())
}

/// Sends the bytes, where nothing waits.
fn send<C: Conn>(conn: &mut C, waiting: &mut Waiting, bytes: &[u8]) -> Result<(), CutOff>
    requires begun { IsSome (C.state conn.old).begun }
    requires empty { waiting.old.filled ≡ 0 }
    ensures puts { Puts C.observable bytes.now (put_state (C.state conn.old).sent waiting.old)
        (put_state (C.state conn.new).sent waiting.new) result }
    ensures writes { Writes (C.state conn.old) (C.state conn.new) }
    ensures counts { HasCause (C.state conn.old).faults (C.state conn.new).faults result }
{
    waiting.sent = write_all(conn, bytes, waiting.sent)?;
    Ok(())
}

/// Writes all the bytes, before which `sent` bytes were sent, and returns how many are sent then.
fn write_all<C: Conn>(conn: &mut C, bytes: &[u8], sent: u64) -> Result<u64, CutOff>
    requires begun { IsSome (C.state conn.old).begun }
    ensures sent { IfOk result (λ all. all ≡ counted_by sent (length bytes.now)) }
    ensures whole { OnOk result (C.observable → (C.state conn.new).sent ≡ (C.state conn.old).sent ++ bytes.now) }
    ensures cut { IfErr result (λ cut.
        IsCut C.observable bytes.now (nothing_waits (C.state conn.old).sent sent)
        cut.sent (C.state conn.new).sent) }
    ensures writes { Writes (C.state conn.old) (C.state conn.new) }
    ensures counts { HasCause (C.state conn.old).faults (C.state conn.new).faults result }
{
    let mut written = 0;
    while written < bytes.len() {
        let (_, rest) = bytes.split_at(written);
        match conn.write(rest) {
            Ok(count) => written += count,
            Err(_) => {
                return Err(CutOff {
                    sent: sent.saturating_add(written as u64),
                });
            }
        }
    }
    Ok(sent.saturating_add(written as u64))
}
