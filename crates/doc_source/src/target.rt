//! The request for the document of an address.

ghost use Rattle.std.specs.Prelude.{◌≡◌, ◌==◌, true, false, take, drop, position, option_map, codes, bytes_eq, IfOk, MatchOption};
ghost use Rattle.std.specs.Char.{is_ascii_graphic};
ghost use Rattle.std.specs.List.{list_all};
ghost use Rattle.doc_source.specs.Http.{behind_scheme, first_of, request_text, target_of};

use std::alloc::{AllocError, Global};

/// The scheme of the addresses that can be asked for.
const SCHEME: &[u8] = b"http://";

/// The parts of an address that a request names.
#[derive(Clone, Copy, Debug)]
pub(crate) struct Target<'a> {
    /// The host, and its port if the address has one.
    pub(crate) authority: &'a [u8],
    /// The address from the first `/` after the host up to its end or to a `#`.
    pub(crate) path: &'a [u8],
}

impl<'a> Target<'a> {
    /// The parts of an address. `None` if it isn't `http://HOST/..` or `http://HOST:PORT/..`, or has a byte
    /// that isn't a visible ASCII character. Such a byte could end a line of the request.
    pub(crate) fn of(address: &'a [u8]) -> Option<Target<'a>>
        ensures { option_map (λ t. (t.authority.now, t.path.now)) result ≡ target_of address.now }
    {
        if !is_visible(address) {
            return None;
        }
        let behind = behind_scheme(address)?;
        let (authority, rest) = split_at_first(behind, b'/');
        let (path, _) = split_at_first(rest, b'#');
        if authority.is_empty() || path.is_empty() {
            return None;
        }
        Some(Target { authority, path })
    }

    /// The request for the document. It is one of HTTP/1.0, since a server sends no chunked body to such a
    /// client.
    pub(crate) fn request(&self, alloc: Global) -> Result<Vec<u8>, AllocError>
        ensures { IfOk result (λ text. text.items ≡ request_text self.now.authority.now self.now.path.now) }
    {
        let mut text = Vec::from_slice(alloc, b"GET ")?;
        text.extend_from_slice(self.path)?;
        text.extend_from_slice(b" HTTP/1.0\r\nHost: ")?;
        text.extend_from_slice(self.authority)?;
        text.extend_from_slice(b"\r\nConnection: close\r\n\r\n")?;
        Ok(text)
    }
}

/// Whether all bytes are visible ASCII characters.
fn is_visible(address: &[u8]) -> bool
    ensures { result ≡ list_all is_ascii_graphic address.now }
{
    address.iter().all(|byte| byte.is_ascii_graphic())
}

/// The address after its scheme. `None` if it has another scheme.
fn behind_scheme(address: &[u8]) -> Option<&[u8]>
    ensures { MatchOption result (bytes_eq (take 7 address.now) (codes "http://") ≡ false)
        (λ behind. (bytes_eq (take 7 address.now) (codes "http://") ≡ true)
        × (behind.now ≡ behind_scheme address.now)) }
{
    address.strip_prefix(SCHEME)
}

/// The bytes before the first such byte, and those from it on. If there is none, all are before it.
fn split_at_first(bytes: &[u8], byte: u8) -> (&[u8], &[u8])
    ensures before { result.0.now ≡ take (first_of byte bytes.now) bytes.now }
    ensures from { result.1.now ≡ drop (first_of byte bytes.now) bytes.now }
{
    match find(bytes, byte) {
        Some(place) => bytes.split_at(place),
        None => (bytes, b""),
    }
}

/// The index of the first such byte.
fn find(bytes: &[u8], byte: u8) -> Option<usize>
    ensures { result ≡ position (λ b. b == byte) bytes.now }
{
    bytes.iter().position(|b| *b == byte)
}
