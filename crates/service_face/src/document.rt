ghost use Rattle.std.specs.Prelude.{◌≡◌, IfOk};
ghost use Rattle.service_face.specs.Service.{service_text, titled_service};

use atom_values::{AtomText, NoMemory, escape_into};
use atom_writer::FeedName;
use chain_links::{Address, Base};
use std::alloc::Global;

const START: &[u8] =
    b"<?xml version=\"1.0\" encoding=\"utf-8\"?>\n<service xmlns=\"http://www.w3.org/2007/app\" \
xmlns:atom=\"http://www.w3.org/2005/Atom\"><workspace><atom:title>";

const COLLECTION: &[u8] = b"</atom:title><collection href=\"";

const COLLECTION_TITLE: &[u8] = b"\"><atom:title>";

const END: &[u8] =
    b"</atom:title><accept>application/atom+xml;type=entry</accept></collection></workspace></service>\n";

/// Returns the service document of the feed: one workspace with one collection, which accepts entries. Both have the
/// feed's title.
///
/// The only error is out of memory.
pub fn service_doc(alloc: Global, name: &FeedName) -> Result<Vec<u8>, NoMemory>
    ensures { IfOk result (λ text. text.items ≡ service_text name.now) }
{
    titled_service(alloc, &name.base, &name.title)
}

/// Returns the service document of the feed with this base address and title.
pub(crate) fn titled_service(
    alloc: Global,
    base: &Base,
    title: &AtomText,
) -> Result<Vec<u8>, NoMemory>
    ensures { IfOk result (λ text. text.items ≡ titled_service base.now title.now) }
{
    let mut text = Vec::from_slice(alloc, START)?;
    escape_into(&mut text, title, false)?;
    text.extend_from_slice(COLLECTION)?;
    base.print_into(&mut text, Address::Feed)?;
    text.extend_from_slice(COLLECTION_TITLE)?;
    escape_into(&mut text, title, false)?;
    text.extend_from_slice(END)?;
    Ok(text)
}
