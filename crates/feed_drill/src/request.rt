ghost use Rattle.std.specs.Prelude.{◌≡◌, ◌≤◌, [], IfOk, IsTrue, None, OnOk, Some, length, vec_len};
ghost use Rattle.atom_values.specs.Entry.{DraftValue, titled};
ghost use Rattle.chain_links.specs.Address.{IsAddress, printed};
ghost use Rattle.entry_reader.specs.Spells.{Spells};
ghost use Rattle.feed_drill.specs.Effects.{HasNoLists, HasNoOptions, IsWish, IsWishRead, ReadsAsTitle};
ghost use Rattle.feed_drill.specs.Effects.{ask_of};
ghost use Rattle.feed_drill.specs.Requests.{entry_body, entry_media, feed_request, request_of};
ghost use Rattle.feed_drill.specs.Turn.{title_of};

use crate::wish::Wish;
use atom_values::{Bytes, Draft, NoMemory, Text, TextKind};
use chain_links::{Address, Base};
use entry_reader::{MAX_ENTRY, read_entry};
use http_face::{Request, Verb};
use itoa::Buffer;
use std::alloc::Global;

/// The title of the entry that a turn makes.
fn title(alloc: Global, turn: u32) -> Result<Vec<u8>, NoMemory>
    ensures title { IfOk result (λ title. title.items ≡ title_of turn) }
    ensures short { IfOk result (λ title. vec_len title ≤ 41) }
{
    let mut title = Vec::from_slice(alloc, b"t")?;
    title.extend_from_slice(Buffer::new().format(turn).as_bytes())?;
    Ok(title)
}

/// Whether the text is this plain text.
fn is_plain(text: &Text, value: &[u8]) -> bool
    ensures { IsTrue result → text.now ≡ record { kind = TextKind.Plain; value = value.now } }
{
    text.kind == TextKind::Plain && text.value.bytes() == value
}

/// Whether the draft has no author, contributor, link or category.
fn has_no_lists(draft: &Draft) -> bool
    ensures { IsTrue result → HasNoLists draft.now }
{
    draft.authors.as_slice().is_empty()
        && draft.contributors.as_slice().is_empty()
        && draft.links.as_slice().is_empty()
        && draft.categories.as_slice().is_empty()
}

/// Whether the draft has no identifier, date or text beside its title.
fn has_no_options(draft: &Draft) -> bool
    ensures { IsTrue result → HasNoOptions draft.now }
{
    draft.id.is_none()
        && draft.updated.is_none()
        && draft.published.is_none()
        && draft.rights.is_none()
        && draft.summary.is_none()
        && draft.content.is_none()
}

/// Whether the draft has this plain title and nothing else.
fn is_titled(draft: &Draft, title: &[u8]) -> bool
    ensures { IsTrue result → draft.now ≡ titled title.now }
{
    is_plain(&draft.title, title) && has_no_lists(draft) && has_no_options(draft)
}

/// Whether the bytes are read as an entry document with this plain title and nothing else.
fn reads_as_title(alloc: Global, bytes: &[u8], title: &[u8]) -> bool
    requires { length bytes.now ≤ MAX_ENTRY }
    ensures { IsTrue result → (draft : DraftValue) → Spells bytes.now draft → draft ≡ titled title.now }
{
    match read_entry(alloc, bytes) {
        Ok(draft) => {
            let titled = is_titled(&draft, title);
            drop(draft);
            titled
        }
        Err(_) => false,
    }
}

/// The entry document of a turn.
fn entry(alloc: Global, turn: u32) -> Result<Bytes, NoMemory>
    ensures body { IfOk result (λ body. body ≡ entry_body turn) }
    ensures short { IfOk result (λ body. length body ≤ MAX_ENTRY) }
    ensures read { OnOk result (ReadsAsTitle turn) }
{
    let title = title(alloc, turn)?;
    let mut body = Vec::from_slice(
        alloc,
        b"<entry xmlns=\"http://www.w3.org/2005/Atom\"><title>",
    )?;
    body.extend_from_slice(title.as_slice())?;
    body.extend_from_slice(b"</title></entry>")?;
    // The document is read as its title, or memory runs out.
    if !reads_as_title(alloc, body.as_slice(), title.as_slice()) {
        return Err(NoMemory);
    }
    Ok(Bytes::from_vec(body))
}

/// The media type of an entry document.
const ENTRY_MEDIA: &[u8] = b"application/atom+xml;type=entry";

/// A request with the entry document of a turn.
fn entry_request(
    alloc: Global,
    base: &Base,
    turn: u32,
    verb: Verb,
    address: Address,
) -> Result<Request, NoMemory>
    requires { IsAddress address }
    ensures request { IfOk result (λ request. request ≡ record {
      verb = verb;
      target = printed base.now address;
      media = Some entry_media;
      body = entry_body turn;
    }) }
    ensures read { OnOk result (ReadsAsTitle turn) }
{
    let target = Bytes::from_vec(base.print(alloc, address)?);
    let media = Bytes::of(alloc, ENTRY_MEDIA)?;
    let body = entry(alloc, turn)?;
    Ok(Request {
        verb,
        target,
        media: Some(media),
        body,
    })
}

/// A request without a body.
fn bare_request(
    alloc: Global,
    base: &Base,
    verb: Verb,
    address: Address,
) -> Result<Request, NoMemory>
    requires { IsAddress address }
    ensures { IfOk result (λ request. request ≡ record {
      verb = verb;
      target = printed base.now address;
      media = None;
      body = [];
    }) }
{
    let target = Bytes::from_vec(base.print(alloc, address)?);
    Ok(Request {
        verb,
        target,
        media: None,
        body: Bytes::from_vec(Vec::new(alloc)),
    })
}

/// The request for what a turn asks.
pub(crate) fn wish_request(
    alloc: Global,
    base: &Base,
    turn: u32,
    wish: Wish,
) -> Result<Request, NoMemory>
    requires { IsWish wish }
    ensures request { IfOk result (λ request. request ≡ request_of base.now turn (ask_of turn wish)) }
    ensures read { OnOk result (IsWishRead turn wish) }
{
    match wish {
        Wish::Create => entry_request(alloc, base, turn, Verb::Post, Address::Feed),
        Wish::Replace(number) => {
            entry_request(alloc, base, turn, Verb::Put, Address::Member(number))
        }
        Wish::Delete(number) => bare_request(alloc, base, Verb::Delete, Address::Member(number)),
    }
}

/// The request for the feed's document.
pub(crate) fn show_request(alloc: Global, base: &Base) -> Result<Request, NoMemory>
    ensures { IfOk result (λ request. request ≡ feed_request base.now) }
{
    bare_request(alloc, base, Verb::Get, Address::Feed)
}
