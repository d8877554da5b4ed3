//! The bytes of operations and heads, which are written by hand, field by field.

use crate::samples::NewSetting::{Title, Window};
use crate::samples::Step::{self, Change, Remove, Set};
use crate::samples::operation;
use Form::{Head, Operation};
use member_rules::{CodecFault, head_bytes, op_bytes, read_head, read_op};
use std::alloc::Global;
use std::process::Abort;

/// An operation of the kind Add with each field.
const ADD: &[u8] = b"\x01\
\x00\x00\x00\x03\
\x00\x00\x3a\x16\x3e\xe9\xc8\x00\
\x00\x00\x3a\x16\x3e\xe9\xcb\xe8\
\x01\x00\x00\x00\x05<b>A \
\x01\x00\x00\x38\x8a\x6f\x04\x5f\xff\
\x02\x00\x00\x00\x01N\x01\x00\x00\x00\x01u\x01\x00\x00\x00\x01e\x00\x00\x00\x01M\x00\x00\
\x01\x00\x00\x00\x01P\x00\x00\
\x02\x00\x00\x00\x01h\x00\x00\x00\x03via\x01\x00\x00\x00\x01t\x01\x00\x00\x00\x02en\x00\x01\x00\x00\x00\x0212\
\x00\x00\x00\x01u\x00\x00\x00\x09alternate\x00\x00\x00\x00\
\x01\x00\x00\x00\x01t\x01\x00\x00\x00\x01s\x00\
\x01\x00\x00\x00\x00\x01r\
\x01\x01\x00\x00\x00\x01s\
\x00";

/// An operation of the kind Change with a title and empty content.
const CHANGE: &[u8] = b"\x02\
\x00\x00\x00\x01\
\x00\x00\x3a\x16\x3e\xe9\xc8\x00\
\x00\x00\x3a\x16\x3e\xe9\xcb\xe8\
\x00\x00\x00\x00\x01A\
\x00\
\x00\
\x00\
\x00\
\x00\
\x00\
\x00\
\x01\x00\x00\x00\x00\x00";

/// An operation of the kind Remove, with the same moment twice.
const REMOVE: &[u8] = b"\x03\
\x00\x00\x00\x02\
\x00\x00\x3a\x16\x3e\xe9\xc8\x00\
\x00\x00\x3a\x16\x3e\xe9\xc8\x00";

/// An operation that sets the title `New`.
const TITLE: &[u8] = b"\x04\
\x00\x00\x3a\x16\x3e\xe9\xc8\x00\
\x01\
\x00\x00\x00\x03New";

/// An operation that sets the size 3 of windows.
const WINDOW: &[u8] = b"\x04\
\x00\x00\x3a\x16\x3e\xe9\xc8\x00\
\x02\
\x00\x00\x00\x03";

const HEAD: &[u8] = b"\x01\
\x00\x00\x00\x14http://feed.example/\
\x6d\x1f\x0c\x5a\x93\xbe\x4c\x27\x8d\x10\x2b\x7f\x9e\x4a\x5c\x36\
\x00\x00\x00\x04Feed\
\x00\x00\x00\x06Editor\
\x00\x00\x00\x0a\
\x00\x00\x00\x00\x40\x00\x00\x00\
\x00\x00\x38\x8a\x6f\x04\x60\x00";

/// What bytes are read as.
enum Form {
    Operation,
    Head,
}

/// The first byte that is replaced, how many bytes are replaced, the bytes in their place, and the offset of the
/// refusal.
type Replaced = (usize, usize, &'static [u8], usize);

/// In place of an offset: the bytes are read, and written back as they were.
const READ: usize = usize::MAX;

/// Bytes that are read, the offsets of their fields, and changes of them. A prefix is refused at its last field.
type Coded = (Form, &'static [u8], &'static [usize], &'static [Replaced]);

static CODED: [Coded; 6] = [
    (
        Operation,
        ADD,
        &[0, 1, 5, 13, 21, 31, 40, 65, 73, 129, 142, 149, 156],
        &[
            (124, 1, b"f", 156),
            (156, 1, b"\x01\x01\x00\x00\x00\x00", READ),
            (41, 4, b"\x00\x00\xff\xff", 40),
            (157, 0, b"\x00", 157),
        ],
    ),
    (
        Operation,
        CHANGE,
        &[0, 1, 5, 13, 21, 27, 28, 29, 30, 31, 32, 33, 34],
        &[
            (0, 1, b"\x00", 0),
            (0, 1, b"\x01", READ),
            // An operation that sets a setting has its moment at byte 1, here one of the year 0, and its kind at byte 9.
            (0, 1, b"\x04", 9),
            (0, 1, b"\x05", 0),
            (1, 4, b"\x00\x00\x00\x00", 1),
            (1, 4, b"\xff\xff\xff\xff", READ),
            (5, 8, b"\x00\x01\x1f\x02\x41\x24\x3b\xff", READ),
            (5, 8, b"\x00\x01\x1f\x02\x41\x24\x3c\x00", 5),
            (5, 8, b"\xff\xff\xff\xff\xff\xff\xff\xff", 5),
            (13, 8, b"\x00\x01\x1f\x02\x41\x24\x3c\x00", 13),
            (21, 1, b"\x02", 21),
            (22, 4, b"\xff\xff\xff\xff", 21),
            (26, 1, b"\x01", 21),
            (26, 1, b"\xff", 21),
            (27, 1, b"\x02", 27),
            (27, 1, b"\x01\x00\x01\x1f\x02\x41\x24\x3c\x00", 27),
            (27, 1, b"\x01\x00\x00\x00\x00\x00\x00\x00\x00", READ),
            (28, 1, b"\x11", 28),
            (29, 1, b"\xff", 29),
            (29, 1, b"\x01\x00\x00\x00\x01P\x02\x00", 29),
            (
                30,
                1,
                b"\x01\x00\x00\x00\x01u\x00\x00\x00\x04edit\x00\x00\x00\x00",
                30,
            ),
            (
                30,
                1,
                b"\x01\x00\x00\x00\x01u\x00\x00\x00\x04Edit\x00\x00\x00\x00",
                READ,
            ),
            (30, 1, b"\x21", 30),
            (31, 1, b"\x41", 31),
            (32, 1, b"\x02", 32),
            (32, 1, b"\x01\x02\x00\x00\x00\x00", 32),
            (33, 1, b"\x03", 33),
            (34, 6, b"\x00", 34),
            (34, 1, b"\x02", 34),
            (40, 0, b"\x00", 40),
            (40, 0, b"\x02\x00", 40),
        ],
    ),
    (
        Operation,
        REMOVE,
        &[0, 1, 5, 13],
        &[
            (1, 4, b"\x00\x00\x00\x00", 1),
            (5, 8, b"\x00\x01\x1f\x02\x41\x24\x3c\x00", 5),
            (12, 1, b"\x01", 13),
            (20, 1, b"\x01", READ),
            (13, 8, b"\x00\x01\x1f\x02\x41\x24\x3c\x00", 13),
            (21, 0, b"\x00", 21),
        ],
    ),
    (
        Operation,
        TITLE,
        &[0, 1, 9, 10],
        &[
            (0, 1, b"\x00", 0),
            // The number of a removal, and then its moment, which is after the last one.
            (0, 1, b"\x03", 5),
            (0, 1, b"\x05", 0),
            (1, 8, b"\x00\x00\x00\x00\x00\x00\x00\x00", READ),
            (1, 8, b"\x00\x01\x1f\x02\x41\x24\x3b\xff", READ),
            (1, 8, b"\x00\x01\x1f\x02\x41\x24\x3c\x00", 1),
            (9, 1, b"\x00", 9),
            (9, 1, b"\x03", 9),
            (9, 1, b"\xff", 9),
            // The size 3, and then three bytes too many.
            (9, 1, b"\x02", 14),
            (10, 7, b"\x00\x00\x00\x00", READ),
            (10, 4, b"\x00\x00\x00\x00", 14),
            (10, 4, b"\x00\x00\x00\x04", 10),
            (10, 4, b"\xff\xff\xff\xff", 10),
            (14, 1, b"\x09", READ),
            (14, 1, b"\x0b", 10),
            (16, 1, b"\xff", 10),
            (14, 3, b"\xef\xbf\xbf", 10),
            (17, 0, b"\x00", 17),
        ],
    ),
    (
        Operation,
        WINDOW,
        &[0, 1, 9, 10],
        &[
            (1, 8, b"\x00\x01\x1f\x02\x41\x24\x3b\xff", READ),
            (1, 8, b"\x00\x01\x1f\x02\x41\x24\x3c\x00", 1),
            (9, 1, b"\x00", 9),
            // A text of three bytes, of which there are none.
            (9, 1, b"\x01", 10),
            (9, 1, b"\x03", 9),
            (10, 4, b"\x00\x00\x00\x00", 10),
            (10, 4, b"\x00\x00\x00\x01", READ),
            (10, 4, b"\x00\x00\x00\x64", READ),
            (10, 4, b"\x00\x00\x00\x65", 10),
            (10, 4, b"\x00\x00\x01\x01", 10),
            (10, 4, b"\x01\x00\x00\x01", 10),
            (14, 0, b"\x00", 14),
            (14, 0, b"New", 14),
        ],
    ),
    (
        Head,
        HEAD,
        &[0, 1, 25, 41, 49, 59, 63, 71],
        &[
            (0, 1, b"\x00", 0),
            (0, 1, b"\x02", READ),
            (0, 1, b"\x03", READ),
            (0, 1, b"\x04", 0),
            (0, 1, b"\xff", 0),
            (5, 1, b"H", 1),
            (1, 24, b"\x00\x00\x00\x00", 1),
            (31, 1, b"\x8c", 25),
            (31, 1, b"\x7c", READ),
            (45, 1, b"\x00", 41),
            (41, 4, b"\x00\x01\x00\x00", 41),
            (49, 10, b"\x00\x00\x00\x00", READ),
            (59, 4, b"\x00\x00\x00\x00", 59),
            (59, 4, b"\x00\x00\x00\x64", READ),
            (59, 4, b"\x00\x00\x00\x65", 59),
            (63, 8, b"\x00\x00\x00\x00\x00\x00\x0f\xff", 63),
            (63, 8, b"\x00\x00\x00\x00\x00\x00\x10\x00", READ),
            (63, 8, b"\x00\x00\x00\x10\x00\x00\x00\x00", READ),
            (63, 8, b"\x00\x00\x00\x10\x00\x00\x00\x01", 63),
            (71, 8, b"\x00\x00\x38\x8a\x6f\x04\x5f\xff", 71),
            (71, 8, b"\x00\x01\x1f\x02\x41\x24\x3c\x00", 71),
            (79, 0, b"\x00", 79),
        ],
    ),
];

/// A change whose bytes are followed by this many letters: the title of an operation or of a head.
static LONG: [(Form, &[u8], Replaced, usize); 6] = [
    (
        Operation,
        CHANGE,
        (22, 5, b"\x00\x01\x00\x00", READ),
        65_536,
    ),
    (Operation, CHANGE, (22, 5, b"\x00\x01\x00\x01", 21), 65_537),
    (Operation, TITLE, (10, 7, b"\x00\x00\x04\x00", READ), 1_024),
    (Operation, TITLE, (10, 7, b"\x00\x00\x04\x01", 10), 1_025),
    (Head, HEAD, (41, 8, b"\x00\x00\x04\x00", READ), 1_024),
    (Head, HEAD, (41, 8, b"\x00\x00\x04\x01", 41), 1_025),
];

/// The offset at which the bytes are refused, or `READ`.
fn refusal(rt: &impl Abort, alloc: Global, form: &Form, bytes: &[u8]) -> usize {
    let fault = match form {
        Operation => match read_op(alloc, bytes) {
            Ok(operation) => {
                let written = op_bytes(alloc, &operation).expect(rt, "memory");
                drop(operation);
                assert!(rt; written.as_slice() == bytes);
                return READ;
            }
            Err(fault) => fault,
        },
        Head => match read_head(alloc, bytes) {
            Ok(head) => {
                let written = head_bytes(alloc, &head).expect(rt, "memory");
                drop(head);
                assert!(rt; written.as_slice() == bytes);
                return READ;
            }
            Err(fault) => fault,
        },
    };
    match fault {
        CodecFault::BadField { at } => at,
        CodecFault::NoMemory => panic!(rt; "out of memory"),
    }
}

/// Compares the refusal of bytes with a change, whose bytes are followed by this many letters.
fn expect_change(
    rt: &impl Abort,
    alloc: Global,
    form: &Form,
    bytes: &[u8],
    (at, count, new, refused): &Replaced,
    letters: usize,
) {
    let front = bytes.get(..*at).unwrap_or(bytes);
    let back = bytes.get(at.saturating_add(*count)..).unwrap_or(b"");
    let mut made = Vec::from_slice(alloc, front).expect(rt, "memory");
    made.extend_from_slice(new).expect(rt, "memory");
    let length = made.len().saturating_add(letters);
    made.resize(length, b'a').expect(rt, "memory");
    made.extend_from_slice(back).expect(rt, "memory");
    let refusal = refusal(rt, alloc, form, made.as_slice());
    assert!(rt; refusal == *refused, "{at} {refused}");
}

/// Compares the refusals of bytes with each change, and of each prefix.
fn expect_coded(rt: &impl Abort, alloc: Global, (form, bytes, fields, changes): &Coded) {
    assert!(rt; refusal(rt, alloc, form, bytes) == READ);
    for change in *changes {
        expect_change(rt, alloc, form, bytes, change, 0);
    }
    for end in 0..bytes.len() {
        let mut field = READ;
        for start in *fields {
            if *start <= end {
                field = *start;
            }
        }
        let refusal = refusal(rt, alloc, form, &bytes[..end]);
        assert!(rt; refusal == field, "{end}");
    }
}

#[test]
fn refuses_a_changed_field(rt: HostRuntime) {
    for coded in &CODED {
        expect_coded(&rt, rt.alloc(), coded);
    }
    for (form, bytes, change, letters) in &LONG {
        expect_change(&rt, rt.alloc(), form, bytes, change, *letters);
    }
}

/// Operations at the moment 1,700,000,000,000, with this stamp. Other calls make them, so it isn't the reader that says
/// what their bytes mean.
static MADE: [(Step, i64, &[u8]); 4] = [
    (Change(1), 1_700_000_001_000, CHANGE),
    (Remove(2), 1_700_000_000_000, REMOVE),
    (Set(Title(b"New")), 0, TITLE),
    (Set(Window(3)), 0, WINDOW),
];

#[test]
fn writes_an_operation_that_was_made(rt: HostRuntime) {
    for &(step, stamp, bytes) in &MADE {
        let operation = operation(&rt, rt.alloc(), step, 1_700_000_000_000, stamp);
        let written = op_bytes(rt.alloc(), &operation).expect(&rt, "memory");
        drop(operation);
        assert!(rt; written.as_slice() == bytes);
    }
}
