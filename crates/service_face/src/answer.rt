ghost use Rattle.std.specs.Prelude.{◌≡◌, false, IfOk, IfSome};
ghost use Rattle.feed_recovery.specs.Store.{is_spent};
ghost use Rattle.http_face.specs.Reply.{HasPhrase};
ghost use Rattle.service_face.specs.Reply.{asked_reply, service_reply, shown_page};

use crate::document::titled_service;
use crate::lines::listing;
use crate::page::Page;
use atom_values::NoMemory;
use feed_recovery::Store;
use http_face::{Allow, Line7, Media, Reply, Request, Verb};
use std::alloc::Global;

/// Returns the reply to a request of the service document or of the listing. `None` if the target names neither.
///
/// The only error is out of memory.
pub fn service_answer(
    alloc: Global,
    store: &Store,
    request: &Request,
) -> Result<Option<Reply>, NoMemory>
    requires { is_spent store.now ≡ false }
    ensures reply { IfOk result (λ given. given ≡ service_reply store.now request.now) }
    // The status line of the reply has a phrase.
    ensures status { IfOk result (λ given. IfSome given (λ reply. HasPhrase reply.status)) }
{
    match Page::of_target(&store.head().name.base, request.target.slice()) {
        Some(page) => Ok(Some(reply_to(alloc, store, page, request.verb)?)),
        None => Ok(None),
    }
}

/// Replies to a request of a page with this method.
fn reply_to(alloc: Global, store: &Store, page: Page, verb: Verb) -> Result<Reply, NoMemory>
    requires { is_spent store.now ≡ false }
    ensures reply { IfOk result (λ reply. reply ≡ asked_reply store.now page verb) }
    ensures status { IfOk result (λ reply. HasPhrase reply.status) }
{
    match verb {
        Verb::Get => show(alloc, store, page),
        Verb::Other => Ok(Reply::line(501, Line7::NotImplemented)),
        // Like an archive, a page allows GET alone.
        _ => Ok(Reply::not_allowed(Allow::OfArchive)),
    }
}

/// Replies with a page.
#[tactic(auto, unfolding(member_rules::specs::Documents::name_of))]
fn show(alloc: Global, store: &Store, page: Page) -> Result<Reply, NoMemory>
    requires { is_spent store.now ≡ false }
    ensures reply { IfOk result (λ reply. reply ≡ shown_page store.now page) }
    ensures status { IfOk result (λ reply. HasPhrase reply.status) }
{
    let base = &store.head().name.base;
    match page {
        Page::Service => {
            let text = titled_service(alloc, base, store.title())?;
            Ok(Reply::document(Media::Service, text))
        }
        Page::Members => {
            let text = listing(alloc, base, store.members())?;
            Ok(Reply::document(Media::Plain, text))
        }
    }
}
