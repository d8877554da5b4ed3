//! Stores of each format: what they show, and that they take settings. A program in Python wrote their bytes and texts
//! from docs/FORMATS.md.

use crate::disks::{append, area_of, disk_of};
use crate::stores::{Document, OPENING, Request, Step, session, sessions};
use Payload::{Head, Operation, Seal};
use feed_disk::{Area, Disk};
use feed_recovery::{LoadFault, Store};
use std::alloc::Global;
use std::process::Abort;

/// The fields of a head after its format, with windows of 4 operations and areas of 1 GiB.
const HEAD: &[u8] =
    b"\x00\x00\x00\x14http://feed.example/m\x1f\x0cZ\x93\xbeL'\x8d\x10+\x7f\x9eJ\x5c6\x00\x00\x00\x04Feed\x00\x00\x00\x06Editor\x00\x00\x00\x04\x00\x00\x00\x00@\x00\x00\x00\x00\x00:\x16>\xe9\xc8\x00";

/// The first archive of the store of format 2, after `OPENING`.
const SEAL_2: &[u8] =
    b"<title>New</title>\n<updated>2023-11-14T22:13:20.004Z</updated>\n<author><name>Editor</name></author>\n<link rel=\"self\" href=\"http://feed.example/archive/1\"/>\n<link rel=\"current\" href=\"http://feed.example/feed\"/>\n<link rel=\"next-archive\" href=\"http://feed.example/archive/2\"/>\n<fh:archive/>\n<sp:span first=\"1\" last=\"4\"/>\n<entry><id>urn:uuid:6d1f0c5a-93be-8c27-8000-000000000003</id><title>c</title><updated>2023-11-14T22:13:20.004Z</updated><app:edited>2023-11-14T22:13:20.004Z</app:edited><link rel=\"edit\" href=\"http://feed.example/member/3\"/><content></content></entry>\n<entry><id>urn:uuid:6d1f0c5a-93be-8c27-8000-000000000002</id><title>b</title><updated>2023-11-14T22:13:20.002Z</updated><app:edited>2023-11-14T22:13:20.002Z</app:edited><link rel=\"edit\" href=\"http://feed.example/member/2\"/><content></content></entry>\n<entry><id>urn:uuid:6d1f0c5a-93be-8c27-8000-000000000001</id><title>a</title><updated>2023-11-14T22:13:20.001Z</updated><app:edited>2023-11-14T22:13:20.001Z</app:edited><link rel=\"edit\" href=\"http://feed.example/member/1\"/><content></content></entry>\n</feed>\n";

/// The first archive of the store of format 3, after `OPENING`.
const SEAL_3: &[u8] =
    b"<title>New</title>\n<updated>2023-11-14T22:13:20.004Z</updated>\n<author><name>Editor</name></author>\n<link rel=\"self\" href=\"http://feed.example/archive/1\"/>\n<link rel=\"current\" href=\"http://feed.example/feed\"/>\n<link rel=\"next-archive\" href=\"http://feed.example/archive/2\"/>\n<fh:archive/>\n<sp:span first=\"1\" last=\"4\"/>\n<entry><id>urn:uuid:6d1f0c5a-93be-8c27-8000-000000000002</id><title>b</title><updated>2023-11-14T22:13:20.002Z</updated><app:edited>2023-11-14T22:13:20.002Z</app:edited><link rel=\"edit\" href=\"http://feed.example/member/2\"/><content></content></entry>\n<entry><id>urn:uuid:6d1f0c5a-93be-8c27-8000-000000000001</id><title>a</title><updated>2023-11-14T22:13:20.001Z</updated><app:edited>2023-11-14T22:13:20.001Z</app:edited><link rel=\"edit\" href=\"http://feed.example/member/1\"/><content></content></entry>\n</feed>\n";

/// A payload of an area.
enum Payload {
    /// A head of this format.
    Head(&'static [u8; 1]),
    Operation(&'static [u8]),
    /// An archive, after `OPENING`.
    Seal(&'static [u8]),
}

/// A store: the payloads of its journal and its sealed area, and its sessions. In one of these it gets a title, the size 1
/// and two members.
struct Case {
    journal: &'static [Payload],
    sealed: &'static [Payload],
    sessions: &'static [&'static [Step]],
}

static FIVE: [Payload; 6] = [
    Head(b"\x02"),
    Operation(
        b"\x01\x00\x00\x00\x01\x00\x00:\x16>\xe9\xc8\x01\x00\x00:\x16>\xe9\xc8\x01\x00\x00\x00\x00\x01a\x00\x00\x00\x00\x00\x00\x00\x01\x00\x00\x00\x00\x00",
    ),
    Operation(
        b"\x01\x00\x00\x00\x02\x00\x00:\x16>\xe9\xc8\x02\x00\x00:\x16>\xe9\xc8\x02\x00\x00\x00\x00\x01b\x00\x00\x00\x00\x00\x00\x00\x01\x00\x00\x00\x00\x00",
    ),
    Operation(b"\x04\x00\x00:\x16>\xe9\xc8\x03\x01\x00\x00\x00\x03New"),
    Operation(
        b"\x01\x00\x00\x00\x03\x00\x00:\x16>\xe9\xc8\x04\x00\x00:\x16>\xe9\xc8\x04\x00\x00\x00\x00\x01c\x00\x00\x00\x00\x00\x00\x00\x01\x00\x00\x00\x00\x00",
    ),
    Operation(
        b"\x01\x00\x00\x00\x04\x00\x00:\x16>\xe9\xc8\x05\x00\x00:\x16>\xe9\xc8\x05\x00\x00\x00\x00\x01d\x00\x00\x00\x00\x00\x00\x00\x01\x00\x00\x00\x00\x00",
    ),
];

static CASES: [Case; 3] = [
    Case {
        journal: &[
            Head(b"\x01"),
            Operation(
                b"\x01\x00\x00\x00\x01\x00\x00:\x16>\xe9\xc8\x01\x00\x00:\x16>\xe9\xc8\x01\x00\x00\x00\x00\x01a\x00\x00\x00\x00\x00\x00\x00\x01\x00\x00\x00\x00\x00",
            ),
            Operation(
                b"\x01\x00\x00\x00\x02\x00\x00:\x16>\xe9\xc8\x02\x00\x00:\x16>\xe9\xc8\x02\x00\x00\x00\x00\x01b\x00\x00\x00\x00\x00\x00\x00\x01\x00\x00\x00\x00\x00",
            ),
        ],
        sealed: &[],
        sessions: &[
            &[Step::Counts(2, 0)],
            &[Step::Feed(
                Document::Subscription,
                b"<title>Feed</title>\n<updated>2023-11-14T22:13:20.002Z</updated>\n<author><name>Editor</name></author>\n<link rel=\"self\" href=\"http://feed.example/feed\"/>\n<sp:span first=\"1\" last=\"2\"/>\n<entry><id>urn:uuid:6d1f0c5a-93be-8c27-8000-000000000002</id><title>b</title><updated>2023-11-14T22:13:20.002Z</updated><app:edited>2023-11-14T22:13:20.002Z</app:edited><link rel=\"edit\" href=\"http://feed.example/member/2\"/><content></content></entry>\n<entry><id>urn:uuid:6d1f0c5a-93be-8c27-8000-000000000001</id><title>a</title><updated>2023-11-14T22:13:20.001Z</updated><app:edited>2023-11-14T22:13:20.001Z</app:edited><link rel=\"edit\" href=\"http://feed.example/member/1\"/><content></content></entry>\n</feed>\n",
            )],
            &[
                Step::Commit(Request::Title("Next"), (0, 3, 3)),
                Step::Commit(Request::Size(1), (0, 4, 4)),
                Step::Commit(Request::Add("e"), (3, 5, 5)),
                Step::Commit(Request::Add("f"), (4, 6, 6)),
            ],
            &[Step::Counts(6, 2)],
            &[Step::Feed(
                Document::Subscription,
                b"<title>Next</title>\n<updated>2023-11-14T22:13:20.006Z</updated>\n<author><name>Editor</name></author>\n<link rel=\"self\" href=\"http://feed.example/feed\"/>\n<link rel=\"prev-archive\" href=\"http://feed.example/archive/2\"/>\n<sp:span first=\"6\" last=\"6\"/>\n<entry><id>urn:uuid:6d1f0c5a-93be-8c27-8000-000000000004</id><title>f</title><updated>2023-11-14T22:13:20.006Z</updated><app:edited>2023-11-14T22:13:20.006Z</app:edited><link rel=\"edit\" href=\"http://feed.example/member/4\"/><content></content></entry>\n</feed>\n",
            )],
        ],
    },
    Case {
        journal: &[
            Head(b"\x02"),
            Operation(
                b"\x01\x00\x00\x00\x01\x00\x00:\x16>\xe9\xc8\x01\x00\x00:\x16>\xe9\xc8\x01\x00\x00\x00\x00\x01a\x00\x00\x00\x00\x00\x00\x00\x01\x00\x00\x00\x00\x00",
            ),
            Operation(
                b"\x01\x00\x00\x00\x02\x00\x00:\x16>\xe9\xc8\x02\x00\x00:\x16>\xe9\xc8\x02\x00\x00\x00\x00\x01b\x00\x00\x00\x00\x00\x00\x00\x01\x00\x00\x00\x00\x00",
            ),
            Operation(b"\x04\x00\x00:\x16>\xe9\xc8\x03\x01\x00\x00\x00\x03New"),
            Operation(
                b"\x01\x00\x00\x00\x03\x00\x00:\x16>\xe9\xc8\x04\x00\x00:\x16>\xe9\xc8\x04\x00\x00\x00\x00\x01c\x00\x00\x00\x00\x00\x00\x00\x01\x00\x00\x00\x00\x00",
            ),
            Operation(
                b"\x01\x00\x00\x00\x04\x00\x00:\x16>\xe9\xc8\x05\x00\x00:\x16>\xe9\xc8\x05\x00\x00\x00\x00\x01d\x00\x00\x00\x00\x00\x00\x00\x01\x00\x00\x00\x00\x00",
            ),
        ],
        sealed: &[Seal(SEAL_2)],
        sessions: &[
            &[Step::Counts(5, 1)],
            &[Step::Feed(
                Document::Subscription,
                b"<title>New</title>\n<updated>2023-11-14T22:13:20.005Z</updated>\n<author><name>Editor</name></author>\n<link rel=\"self\" href=\"http://feed.example/feed\"/>\n<link rel=\"prev-archive\" href=\"http://feed.example/archive/1\"/>\n<sp:span first=\"5\" last=\"5\"/>\n<entry><id>urn:uuid:6d1f0c5a-93be-8c27-8000-000000000004</id><title>d</title><updated>2023-11-14T22:13:20.005Z</updated><app:edited>2023-11-14T22:13:20.005Z</app:edited><link rel=\"edit\" href=\"http://feed.example/member/4\"/><content></content></entry>\n</feed>\n",
            )],
            &[Step::Feed(Document::Archive(1), SEAL_2)],
            &[
                Step::Commit(Request::Title("Next"), (0, 6, 6)),
                Step::Commit(Request::Size(1), (0, 7, 7)),
                Step::Commit(Request::Add("e"), (5, 8, 8)),
                Step::Commit(Request::Add("f"), (6, 9, 9)),
            ],
            &[Step::Counts(9, 2)],
            &[Step::Feed(
                Document::Subscription,
                b"<title>Next</title>\n<updated>2023-11-14T22:13:20.009Z</updated>\n<author><name>Editor</name></author>\n<link rel=\"self\" href=\"http://feed.example/feed\"/>\n<link rel=\"prev-archive\" href=\"http://feed.example/archive/2\"/>\n<sp:span first=\"9\" last=\"9\"/>\n<entry><id>urn:uuid:6d1f0c5a-93be-8c27-8000-000000000006</id><title>f</title><updated>2023-11-14T22:13:20.009Z</updated><app:edited>2023-11-14T22:13:20.009Z</app:edited><link rel=\"edit\" href=\"http://feed.example/member/6\"/><content></content></entry>\n</feed>\n",
            )],
            &[Step::Feed(Document::Archive(1), SEAL_2)],
        ],
    },
    Case {
        journal: &[
            Head(b"\x03"),
            Operation(
                b"\x01\x00\x00\x00\x01\x00\x00:\x16>\xe9\xc8\x01\x00\x00:\x16>\xe9\xc8\x01\x00\x00\x00\x00\x01a\x00\x00\x00\x00\x00\x00\x00\x01\x00\x00\x00\x00\x00",
            ),
            Operation(
                b"\x01\x00\x00\x00\x02\x00\x00:\x16>\xe9\xc8\x02\x00\x00:\x16>\xe9\xc8\x02\x00\x00\x00\x00\x01b\x00\x00\x00\x00\x00\x00\x00\x01\x00\x00\x00\x00\x00",
            ),
            Operation(b"\x04\x00\x00:\x16>\xe9\xc8\x03\x01\x00\x00\x00\x03New"),
            Operation(b"\x04\x00\x00:\x16>\xe9\xc8\x04\x02\x00\x00\x00\x02"),
            Operation(
                b"\x01\x00\x00\x00\x03\x00\x00:\x16>\xe9\xc8\x05\x00\x00:\x16>\xe9\xc8\x05\x00\x00\x00\x00\x01c\x00\x00\x00\x00\x00\x00\x00\x01\x00\x00\x00\x00\x00",
            ),
            Operation(
                b"\x01\x00\x00\x00\x04\x00\x00:\x16>\xe9\xc8\x06\x00\x00:\x16>\xe9\xc8\x06\x00\x00\x00\x00\x01d\x00\x00\x00\x00\x00\x00\x00\x01\x00\x00\x00\x00\x00",
            ),
        ],
        sealed: &[Seal(SEAL_3)],
        sessions: &[
            &[Step::Counts(6, 1)],
            &[Step::Feed(
                Document::Subscription,
                b"<title>New</title>\n<updated>2023-11-14T22:13:20.006Z</updated>\n<author><name>Editor</name></author>\n<link rel=\"self\" href=\"http://feed.example/feed\"/>\n<link rel=\"prev-archive\" href=\"http://feed.example/archive/1\"/>\n<sp:span first=\"5\" last=\"6\"/>\n<entry><id>urn:uuid:6d1f0c5a-93be-8c27-8000-000000000004</id><title>d</title><updated>2023-11-14T22:13:20.006Z</updated><app:edited>2023-11-14T22:13:20.006Z</app:edited><link rel=\"edit\" href=\"http://feed.example/member/4\"/><content></content></entry>\n<entry><id>urn:uuid:6d1f0c5a-93be-8c27-8000-000000000003</id><title>c</title><updated>2023-11-14T22:13:20.005Z</updated><app:edited>2023-11-14T22:13:20.005Z</app:edited><link rel=\"edit\" href=\"http://feed.example/member/3\"/><content></content></entry>\n</feed>\n",
            )],
            &[Step::Feed(Document::Archive(1), SEAL_3)],
            &[
                Step::Commit(Request::Title("Next"), (0, 7, 7)),
                Step::Commit(Request::Size(1), (0, 8, 8)),
                Step::Commit(Request::Add("e"), (5, 9, 9)),
                Step::Commit(Request::Add("f"), (6, 10, 10)),
            ],
            &[Step::Counts(10, 4)],
            &[Step::Feed(
                Document::Subscription,
                b"<title>Next</title>\n<updated>2023-11-14T22:13:20.010Z</updated>\n<author><name>Editor</name></author>\n<link rel=\"self\" href=\"http://feed.example/feed\"/>\n<link rel=\"prev-archive\" href=\"http://feed.example/archive/4\"/>\n<sp:span first=\"10\" last=\"10\"/>\n<entry><id>urn:uuid:6d1f0c5a-93be-8c27-8000-000000000006</id><title>f</title><updated>2023-11-14T22:13:20.010Z</updated><app:edited>2023-11-14T22:13:20.010Z</app:edited><link rel=\"edit\" href=\"http://feed.example/member/6\"/><content></content></entry>\n</feed>\n",
            )],
            &[Step::Feed(Document::Archive(1), SEAL_3)],
        ],
    },
];

/// The journal and the sealed area of the store of format 2, which has 5 operations.
pub fn five_operations(rt: &impl Abort, alloc: Global) -> (Vec<u8>, Vec<u8>) {
    (framed(rt, alloc, &FIVE), framed(rt, alloc, &[Seal(SEAL_2)]))
}

/// The area with the frames of some payloads, and a closed gate after them.
fn framed(rt: &impl Abort, alloc: Global, payloads: &[Payload]) -> Vec<u8> {
    let mut area = Vec::new(alloc);
    for payload in payloads {
        let (front, back): (&[u8], &[u8]) = match payload {
            Head(format) => (format.as_slice(), HEAD),
            Operation(bytes) => (b"", bytes),
            Seal(text) => (OPENING, text),
        };
        let length = u32::try_from(front.len().saturating_add(back.len())).expect(rt, "a length");
        append(rt, &mut area, b"\x01");
        append(rt, &mut area, &length.to_be_bytes());
        append(rt, &mut area, front);
        append(rt, &mut area, back);
    }
    append(rt, &mut area, b"\x00");
    area
}

#[test]
fn a_store_of_each_format_takes_settings(rt: HostRuntime) {
    let alloc = rt.alloc();
    for (row, case) in CASES.iter().enumerate() {
        let journal = framed(&rt, alloc, case.journal);
        let sealed = framed(&rt, alloc, case.sealed);
        let mut disk = disk_of(&rt, alloc, &journal, &sealed, &[]);
        sessions(&rt, alloc, &mut disk, row, case.sessions);
        drop((disk, journal, sealed));
    }
}

/// The payloads of a journal before and after its first operation, which sets the title `New`.
static TITLES: [(&[Payload], &[Payload]); 3] = [
    (
        &[Head(b"\x01")],
        &[
            Head(b"\x01"),
            Operation(b"\x04\x00\x00:\x16>\xe9\xc8\x01\x01\x00\x00\x00\x03New"),
        ],
    ),
    (
        &[Head(b"\x02")],
        &[
            Head(b"\x02"),
            Operation(b"\x04\x00\x00:\x16>\xe9\xc8\x01\x01\x00\x00\x00\x03New"),
        ],
    ),
    (
        &[Head(b"\x03")],
        &[
            Head(b"\x03"),
            Operation(b"\x04\x00\x00:\x16>\xe9\xc8\x01\x01\x00\x00\x00\x03New"),
        ],
    ),
];

static SET_TITLE: [Step; 1] = [Step::Commit(Request::Title("New"), (0, 1, 1))];

#[test]
fn a_title_makes_the_journal_22_bytes_longer(rt: HostRuntime) {
    let alloc = rt.alloc();
    for (before, after) in &TITLES {
        let empty = framed(&rt, alloc, before);
        let wanted = framed(&rt, alloc, after);
        let mut disk = disk_of(&rt, alloc, &empty, b"", &[]);
        session(&rt, alloc, &mut disk, 0, &SET_TITLE);
        let found = area_of(&rt, alloc, &mut disk, Area::Journal);
        drop(disk);
        assert!(rt; empty.len() == 85 && found.len() == 85 + 22);
        assert!(rt; found == wanted, "{found:?}");
    }
}

/// Returns why a load refuses the disk.
pub fn refusal<D: Disk>(alloc: Global, disk: &mut D) -> Option<LoadFault> {
    match Store::load(alloc, disk) {
        Ok(store) => {
            drop(store);
            None
        }
        Err(fault) => Some(fault),
    }
}

static OTHER_FORMATS: [&[Payload]; 3] = [
    &[
        Head(b"\x00"),
        Operation(
            b"\x01\x00\x00\x00\x01\x00\x00:\x16>\xe9\xc8\x01\x00\x00:\x16>\xe9\xc8\x01\x00\x00\x00\x00\x01a\x00\x00\x00\x00\x00\x00\x00\x01\x00\x00\x00\x00\x00",
        ),
    ],
    &[
        Head(b"\x04"),
        Operation(
            b"\x01\x00\x00\x00\x01\x00\x00:\x16>\xe9\xc8\x01\x00\x00:\x16>\xe9\xc8\x01\x00\x00\x00\x00\x01a\x00\x00\x00\x00\x00\x00\x00\x01\x00\x00\x00\x00\x00",
        ),
    ],
    &[
        Head(b"\xFF"),
        Operation(
            b"\x01\x00\x00\x00\x01\x00\x00:\x16>\xe9\xc8\x01\x00\x00:\x16>\xe9\xc8\x01\x00\x00\x00\x00\x01a\x00\x00\x00\x00\x00\x00\x00\x01\x00\x00\x00\x00\x00",
        ),
    ],
];

#[test]
fn other_formats_are_refused(rt: HostRuntime) {
    let alloc = rt.alloc();
    let wanted = LoadFault::BadRecord {
        area: Area::Journal,
        index: 0,
        at: 0,
    };
    for payloads in &OTHER_FORMATS {
        let journal = framed(&rt, alloc, payloads);
        let mut disk = disk_of(&rt, alloc, &journal, b"", &[]);
        let refused = refusal(alloc, &mut disk);
        drop(disk);
        assert!(rt; refused == Some(wanted), "{journal:?}");
    }
}
