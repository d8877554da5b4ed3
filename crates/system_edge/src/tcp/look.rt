//! A look at the bytes of a request that is arriving. It takes no memory.

ghost use Rattle.std.specs.Prelude.{length, All};
ghost use Rattle.httparse.specs.Spans.{IsHeaderWithin};

use httparse::Status;
use httparse::spans::{EMPTY_HEADER_SPAN, HeaderSpan, parse_request};
use std::str;

/// The most fields of a head that is looked at.
const MAX_FIELDS: usize = 64;

/// Returns the length of the request that the bytes begin with: of its head, and of the body that the head states.
/// `None` if the head isn't whole, if it has more than 64 fields, or if it states the body by anything but one
/// `Content-Length`.
///
/// Reading the request needs no byte behind this length. It may need fewer, since the body of a GET isn't read.
pub(super) fn stated_length(bytes: &[u8]) -> Option<usize> {
    let mut headers = [EMPTY_HEADER_SPAN; MAX_FIELDS];
    let Ok(Status::Complete(head)) = parse_request(bytes, &mut headers) else {
        return None;
    };
    head.len
        .checked_add(stated_size(bytes, &headers[..head.headers])?)
}

/// The length of the body that the fields of a head state, 0 if they state none (RFC 9112 section 6.3). `None` if they
/// state it by anything but one `Content-Length`.
fn stated_size(bytes: &[u8], headers: &[HeaderSpan]) -> Option<usize>
    requires { All (IsHeaderWithin (length bytes.now)) headers.now }
{
    let mut size = None;
    for header in headers {
        let name = header.name.of(bytes);
        if name.eq_ignore_ascii_case(b"transfer-encoding") {
            return None;
        }
        if name.eq_ignore_ascii_case(b"content-length") {
            if size.is_some() {
                return None;
            }
            let digits = str::from_utf8(header.value.of(bytes)).ok()?;
            size = Some(digits.parse::<usize>().ok()?);
        }
    }
    Some(size.unwrap_or(0))
}

/// Whether an empty line follows another line in the bytes. A head ends with one.
pub(super) fn has_empty_line(bytes: &[u8]) -> bool {
    let mut begins_line = false;
    for byte in bytes {
        match byte {
            b'\n' if begins_line => return true,
            b'\n' => begins_line = true,
            b'\r' => {}
            _ => begins_line = false,
        }
    }
    false
}
