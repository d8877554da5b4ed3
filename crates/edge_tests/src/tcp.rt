//! The door of the system, with clients in the same process.

ghost use Rattle.std.specs.Prelude.{IsSome};

use atom_values::{Bytes, Many};
use document_server::Door;
use feed_disk::{Disk, MemoryDisk};
use http_face::Conn;
use std::alloc::Global;
use std::io::{Read, Write};
use std::net::{Net, Shutdown, SocketAddr, TcpStream};
use std::process::Abort;
use std::rt;
use std::time::{Duration, Instant};
use system_edge::{Log, Progress, TcpDoor};

/// A request that is whole.
const REQUEST: &[u8] = b"POST / HTTP/1.1\r\nContent-Length: 4\r\n\r\nseek";

fn empty_disk(rt: &impl Abort, alloc: Global) -> MemoryDisk {
    MemoryDisk::new(
        alloc,
        Bytes::of(alloc, b"").expect(rt, "memory"),
        Bytes::of(alloc, b"").expect(rt, "memory"),
        Bytes::of(alloc, b"").expect(rt, "memory"),
        Many::new(alloc),
    )
}

/// A door that listens, and its address.
fn listening<'a, R>(
    rt: &'a R,
    alloc: Global,
    log: &'a Log,
    progress: &'a Progress<'a, R>,
) -> (TcpDoor<'a, R>, SocketAddr)
where
    R: Net + rt::Clock + Eprint + Abort,
{
    let mut door = TcpDoor::new(alloc, rt, log, progress);
    door.listen(b"127.0.0.1:0").expect(rt, "a port");
    let address = door.address().expect(rt, "an address");
    (door, address)
}

/// Connects a client that sends these bytes.
fn client_of<R>(rt: &R, address: SocketAddr, sent: &[u8]) -> TcpStream
where
    R: Net<Stream = TcpStream> + Abort,
{
    let mut client = TcpStream::connect(rt, address).expect(rt, "a connection");
    client.write_all(sent).expect(rt, "sent bytes");
    client
}

/// Writes all bytes of a reply that was begun.
fn write_all<C: Conn>(rt: &impl Abort, link: &mut C, reply: &[u8])
    requires { IsSome (C.state link.old).begun }
{
    let mut written = 0;
    while written < reply.len() {
        written += link.write(&reply[written..]).expect(rt, "a write");
    }
}

/// Takes the next connection, reads its request up to the first bytes of `request`, and writes a reply.
fn answer_next<R, D>(rt: &R, door: &mut TcpDoor<R>, disk: &D, request: &[u8], reply: &[u8])
where
    R: Net + rt::Clock + Eprint + Abort,
    D: Disk,
{
    let mut link = door.next().expect(rt, "a call").expect(rt, "a client");
    let mut read = [0u8; 64];
    let length = request.len().min(read.len());
    assert_eq!(rt; link.read(&mut read[..length]), Ok(length));
    assert_eq!(rt; &read[..length], request);
    link.begin(disk);
    write_all(rt, &mut link, reply);
    door.back(link);
}

/// Expects that the client receives the reply and then the end of the connection.
fn expect_reply(rt: &impl Abort, mut client: TcpStream) {
    let mut reply = [0u8; 5];
    client.read_exact(&mut reply).expect(rt, "a reply");
    assert_eq!(rt; &reply, b"found");
    let end = client.read(&mut reply).expect(rt, "an end");
    assert_eq!(rt; end, 0);
}

#[test]
fn serves_clients(rt: HostRuntime) {
    let disk = empty_disk(&rt, rt.alloc());
    let log = Log::new(&rt, rt.stderr());
    let progress = Progress::new(&rt, false);
    let (mut door, address) = listening(&rt, rt.alloc(), &log, &progress);
    let no_head = [b'!'; 32_768];
    // A whole request, one that the client ends early, one that is whole and goes on, and one without an end.
    let all: [&[u8]; 4] = [REQUEST, b"seek", b"GET / HTTP/1.1\r\n\r\nmore", &no_head];
    for sent in all {
        let client = client_of(&rt, address, sent);
        client.shutdown(Shutdown::Write).expect(&rt, "an end");
        answer_next(&rt, &mut door, &disk, &sent[..4], b"found");
        expect_reply(&rt, client);
    }
    drop(door);
    drop(disk);
}

#[test]
fn serves_a_client_while_another_is_silent(rt: HostRuntime) {
    let disk = empty_disk(&rt, rt.alloc());
    let log = Log::new(&rt, rt.stderr());
    let progress = Progress::new(&rt, false);
    let (mut door, address) = listening(&rt, rt.alloc(), &log, &progress);
    let mut silent = client_of(&rt, address, b"");
    let client = client_of(&rt, address, REQUEST);
    answer_next(&rt, &mut door, &disk, REQUEST, b"found");
    expect_reply(&rt, client);
    silent.write_all(REQUEST).expect(&rt, "a sent request");
    answer_next(&rt, &mut door, &disk, REQUEST, b"found");
    expect_reply(&rt, silent);
    drop(door);
    drop(disk);
}

/// Requests of which the last byte decides how they are read.
static ARRIVING: [&[u8]; 4] = [
    REQUEST,
    b"GET / HTTP/1.1\nHost: a\n\n",
    b"GET / HTTP/1.1\r\nContent-Length: 4\r\n\r\n",
    b"PUT / HTTP/1.1\r\nTransfer-Encoding: chunked\r\n\r\n",
];

#[test]
fn serves_a_client_while_the_request_of_another_arrives(rt: HostRuntime) {
    let disk = empty_disk(&rt, rt.alloc());
    let log = Log::new(&rt, rt.stderr());
    let progress = Progress::new(&rt, false);
    let (mut door, address) = listening(&rt, rt.alloc(), &log, &progress);
    for &request in &ARRIVING {
        let mut slow = client_of(&rt, address, b"");
        // Every byte of the slow client's request is followed by the whole request of another one.
        let (last, first) = request.split_last().expect(&rt, "a request");
        for byte in first {
            slow.write_all(&[*byte]).expect(&rt, "a sent byte");
            let client = client_of(&rt, address, b"HEAD / HTTP/1.1\r\n\r\n");
            answer_next(&rt, &mut door, &disk, b"HEAD / ", b"found");
            expect_reply(&rt, client);
        }
        slow.write_all(&[*last]).expect(&rt, "a sent byte");
        answer_next(&rt, &mut door, &disk, request, b"found");
        expect_reply(&rt, slow);
    }
    drop(door);
    drop(disk);
}

/// Bytes that decide how a request is read, though more of it may follow.
static DECIDED: [&[u8]; 8] = [
    b"GET / HTTP/1.1\r\nContent-Length: 4\r\n\r\n",
    b"POST / HTTP/1.1\r\n\r\n",
    b"POST / HTTP/1.1\r\nTransfer-Encoding: chunked\r\n\r\n",
    b"POST / HTTP/1.1\r\nContent-Length: 4\r\nContent-Length: 4\r\n\r\n",
    b"POST / HTTP/1.1\r\nContent-Length: +4\r\n\r\n",
    b"POST / HTTP/1.1\r\nContent-Length: 65537\r\n\r\n",
    b"POST / HTTP/1.1\r\nContent-Length: 18446744073709551615\r\n\r\n",
    b"GET  ",
];

#[test]
fn serves_clients_before_they_end(rt: HostRuntime) {
    let disk = empty_disk(&rt, rt.alloc());
    let log = Log::new(&rt, rt.stderr());
    let progress = Progress::new(&rt, false);
    let (mut door, address) = listening(&rt, rt.alloc(), &log, &progress);
    for &sent in &DECIDED {
        let begun = Instant::now(&rt).expect(&rt, "a clock");
        let client = client_of(&rt, address, sent);
        answer_next(&rt, &mut door, &disk, sent, b"found");
        // A request that isn't decided is served after 10 seconds.
        let took = begun.elapsed(&rt).expect(&rt, "a clock");
        assert!(&rt; took < Duration::from_secs(5), "{took:?}");
        expect_reply(&rt, client);
    }
    drop(door);
    drop(disk);
}

#[test]
fn reads_on_after_a_reply(rt: HostRuntime) {
    let disk = empty_disk(&rt, rt.alloc());
    let log = Log::new(&rt, rt.stderr());
    let progress = Progress::new(&rt, false);
    let (mut door, address) = listening(&rt, rt.alloc(), &log, &progress);
    let mut slow = client_of(&rt, address, REQUEST);
    answer_next(&rt, &mut door, &disk, REQUEST, b"found");
    // The first client goes on sending after another one was served.
    for _ in 0..2 {
        let client = client_of(&rt, address, REQUEST);
        answer_next(&rt, &mut door, &disk, REQUEST, b"found");
        expect_reply(&rt, client);
        slow.write_all(&[b'!'; 1000]).expect(&rt, "sent bytes");
    }
    slow.shutdown(Shutdown::Write).expect(&rt, "an end");
    expect_reply(&rt, slow);
    drop(door);
    drop(disk);
}

#[test]
fn serves_a_client_while_another_takes_no_reply(rt: HostRuntime) {
    let disk = empty_disk(&rt, rt.alloc());
    let log = Log::new(&rt, rt.stderr());
    let progress = Progress::new(&rt, false);
    let (mut door, address) = listening(&rt, rt.alloc(), &log, &progress);
    // It is more than the system has room for.
    let long = vec![in rt.alloc(); b'!'; 33_554_432].expect(&rt, "memory");
    let greedy = client_of(&rt, address, REQUEST);
    answer_next(&rt, &mut door, &disk, REQUEST, &long);
    let client = client_of(&rt, address, REQUEST);
    answer_next(&rt, &mut door, &disk, REQUEST, b"found");
    expect_reply(&rt, client);
    // Once the client has gone, nothing is left to send.
    drop(greedy);
    door.finish();
    drop(door);
    drop(disk);
}
