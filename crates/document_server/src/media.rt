ghost use Rattle.std.specs.Prelude.{◌≡◌, ◌==◌, not, position, take_while};
ghost use Rattle.document_server.specs.Reply.{is_entry_media, semicolon};

use atom_values::{Bytes, trimmed};

/// The media type of an entry document (RFC 4287 section 7).
const ATOM: &[u8] = b"application/atom+xml";

/// Returns whether a body of this media type may be an entry document. Parameters don't count, nor does case (RFC 9110
/// section 8.3.1). A body without a media type may be one.
pub(crate) fn is_entry_media(media: &Option<Bytes>) -> bool
    ensures { result ≡ is_entry_media media.now }
{
    let Some(media) = media else {
        return true;
    };
    trimmed(without_parameters(media.slice())).eq_ignore_ascii_case(ATOM)
}

/// Returns the media type up to its first semicolon.
fn without_parameters(media: &[u8]) -> &[u8]
    ensures { result.now ≡ take_while (λ b. not (b == semicolon)) media.now }
{
    match first_semicolon(media) {
        Some(end) => &media[..end],
        None => media,
    }
}

/// Returns the index of the first semicolon.
fn first_semicolon(media: &[u8]) -> Option<usize>
    ensures { result ≡ position (λ b. b == semicolon) media.now }
{
    media.iter().position(|byte| *byte == b';')
}
