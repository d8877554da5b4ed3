//! The fields of a head.

ghost use Rattle.std.specs.Prelude.{◌≡◌, ◌≤◌, ◌↔◌, IsTrue, ◌∷◌, [], map, length, All, IfOk, IfSome, MatchOption, Some, None, if◌then◌else◌};
ghost use Rattle.std.specs.Char.{to_ascii_lowercase};
ghost use Rattle.std.specs.Str.Parse.{digits_value};
ghost use Rattle.httparse.specs.Spans.{IsHeaderWithin, header_bytes};
ghost use Rattle.http_face.specs.Heard.{values_of, is_length, size_of, stated_size};
ghost use Rattle.http_face.specs.Response.{answer_limit, extent_of, stated_extent};

use crate::fault::{RequestFault, ResponseFault};
use crate::request::MAX_BODY;
use crate::response::MAX_ANSWER;
use httparse::spans::HeaderSpan;

/// The most digits of a length.
const MAX_DIGITS: usize = 30;

/// The value of the first field of this name, and the fields after it.
pub(crate) fn find<'b, 'h>(
    bytes: &'b [u8],
    headers: &'h [HeaderSpan],
    name: &[u8],
) -> Option<(&'b [u8], &'h [HeaderSpan])>
    requires { All (IsHeaderWithin (length bytes.now)) headers.now }
    ensures found { MatchOption result
        (values_of name.now (map (header_bytes bytes.now) headers.now) ≡ [])
        (λ found. values_of name.now (map (header_bytes bytes.now) headers.now)
        ≡ found.0.now ∷ values_of name.now (map (header_bytes bytes.now) found.1.now)) }
    ensures within { IfSome result (λ found. All (IsHeaderWithin (length bytes.now)) found.1.now) }
{
    for (i, header) in headers.iter().enumerate() {
        if is_named(header.name.of(bytes), name) {
            return Some((header.value.of(bytes), &headers[i + 1..]));
        }
    }
    None
}

/// Whether a field's name is this one. Case doesn't count (RFC 9110 section 5.1).
fn is_named(field: &[u8], name: &[u8]) -> bool
    ensures { IsTrue result ↔ (map to_ascii_lowercase field.now ≡ map to_ascii_lowercase name.now) }
{
    field.eq_ignore_ascii_case(name)
}

/// The length of the body that the fields state.
pub(crate) fn stated_size(bytes: &[u8], headers: &[HeaderSpan]) -> Result<usize, RequestFault>
    requires { All (IsHeaderWithin (length bytes.now)) headers.now }
    ensures { result ≡ stated_size (map (header_bytes bytes.now) headers.now) }
{
    if find(bytes, headers, b"transfer-encoding").is_some() {
        return Err(RequestFault::NoLength);
    }
    let Some((value, others)) = find(bytes, headers, b"content-length") else {
        return Err(RequestFault::NoLength);
    };
    if find(bytes, others, b"content-length").is_some() {
        return Err(RequestFault::TwoLengths);
    }
    size_of(value)
}

/// The length that a value states.
fn size_of(value: &[u8]) -> Result<usize, RequestFault>
    ensures { result ≡ size_of value.now }
{
    match length_of(value) {
        None => Err(RequestFault::BadHead),
        Some(length) => {
            if length > MAX_BODY as u128 {
                Err(RequestFault::BodyTooLarge { length })
            } else {
                Ok(length as usize)
            }
        }
    }
}

/// The length of the body that the fields of a response state. `None`: the body goes on up to the end.
pub(crate) fn stated_extent(
    bytes: &[u8],
    headers: &[HeaderSpan],
) -> Result<Option<usize>, ResponseFault>
    requires { All (IsHeaderWithin (length bytes.now)) headers.now }
    ensures extent { result ≡ stated_extent (map (header_bytes bytes.now) headers.now) }
    ensures limit { IfOk result (λ extent. IfSome extent (λ size. size ≤ answer_limit)) }
{
    if find(bytes, headers, b"transfer-encoding").is_some() {
        return Err(ResponseFault::BadResponse);
    }
    let Some((value, more)) = find(bytes, headers, b"content-length") else {
        return Ok(None);
    };
    if find(bytes, more, b"content-length").is_some() {
        return Err(ResponseFault::BadResponse);
    }
    extent_of(value)
}

/// The length that the value of a response's field states.
fn extent_of(value: &[u8]) -> Result<Option<usize>, ResponseFault>
    ensures extent { result ≡ extent_of value.now }
    ensures limit { IfOk result (λ extent. IfSome extent (λ size. size ≤ answer_limit)) }
{
    match length_of(value) {
        None => Err(ResponseFault::BadResponse),
        Some(length) => {
            if length > MAX_ANSWER as u128 {
                Err(ResponseFault::BadResponse)
            } else {
                Ok(Some(length as usize))
            }
        }
    }
}

/// The number that 1 to 30 digits write.
fn length_of(value: &[u8]) -> Option<u128>
    ensures { result ≡ (if is_length value.now then Some (digits_value 10 value.now) else None) }
{
    if value.is_empty() || value.len() > MAX_DIGITS {
        return None;
    }
    let mut length: u128 = 0;
    for digit in value {
        if !digit.is_ascii_digit() {
            return None;
        }
        length = length * 10 + u128::from(*digit - b'0');
    }
    Some(length)
}
