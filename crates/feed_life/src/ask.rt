ghost use Rattle.std.specs.Prelude.{◌≡◌, ℕ, false, IfOk, List, OnOk};
ghost use Rattle.feed_disk.specs.Memory.{state_of};
ghost use Rattle.feed_life.specs.Life.{IsStoreOf};
ghost use Rattle.feed_journal.specs.Log.{MakesCalls};
ghost use Rattle.feed_life.specs.Asks.{CountsCalls, IsAnswered, IsOpened, Sends};
ghost use Rattle.feed_life.specs.Crashes.{HasPayloadsOf};
ghost use Rattle.feed_recovery.specs.Store.{StandsFor, call_count, is_spent};
ghost use Rattle.member_rules.specs.Head.{HeadValue};
ghost use Rattle.member_rules.specs.declared.operation.Op.{Op as Operation};

use crate::sent::SentDoc;
use crate::turn::Turn;
use atom_values::{Bytes, NoMemory};
use chain_links::Base;
use document_server::Line;
use feed_disk::MemoryDisk;
use feed_recovery::{Store, stores_open_in_one_way};
use http_face::{Body, Media, Reply, Request};
use member_rules::Head;
use std::alloc::Global;

/// The status of the reply that memory ran out.
pub(crate) const NO_MEMORY: u16 = 503;

/// A turn that was made.
#[derive(Drop)]
pub(crate) struct Answered {
    pub(crate) reply: Reply,
    pub(crate) line: Line,
    /// How many archives the store has sealed.
    pub(crate) sealed: u32,
}

/// Loads the store of a disk. A disk without listed calls fails only if memory runs out.
pub(crate) fn open(alloc: Global, disk: &mut MemoryDisk) -> Result<Store, NoMemory>
    ensures fresh { IfOk result (λ store. is_spent store ≡ false) }
    ensures stands { IfOk result (λ store. StandsFor (state_of disk.new) store) }
    ensures opened { IfOk result (λ store. (head : HeadValue) (history : List Operation)
        → IsStoreOf head history disk.old → IsOpened head history disk.old disk.new store) }
    ensures same { OnOk result (HasPayloadsOf disk.old disk.new) }
    ensures calls { IfOk result (λ store. (number : ℕ)
        × MakesCalls (state_of disk.old) (state_of disk.new) 0 (call_count store) number) }
{
    // A law, which does nothing.
    stores_open_in_one_way();
    match Store::load(alloc, disk) {
        Ok(store) => Ok(store),
        Err(_) => Err(NoMemory),
    }
}

/// Makes a turn on the store of a disk.
pub(crate) fn ask<T: Turn>(
    alloc: Global,
    disk: &mut MemoryDisk,
    turn: &T,
    now: u64,
) -> Result<Answered, NoMemory>
    ensures answered { IfOk result (λ given. (head : HeadValue) (history : List Operation)
        → IsStoreOf head history disk.old
        → IsAnswered head (T.outcomes turn.now now) history disk.old disk.new
        given.reply given.line given.sealed) }
    ensures calls { IfOk result (λ given. CountsCalls disk.old disk.new given.line) }
{
    let mut store = open(alloc, disk)?;
    let Ok(reply) = turn.make(alloc, &mut store, disk, now) else {
        drop(store);
        return Err(NoMemory);
    };
    if reply.status == NO_MEMORY || store.is_spent() {
        drop(reply);
        drop(store);
        return Err(NoMemory);
    }
    let line = Line {
        status: reply.status,
        version: store.version(),
        calls: store.calls(),
        whole: true,
    };
    let sealed = store.sealed();
    drop(store);
    Ok(Answered {
        reply,
        line,
        sealed,
    })
}

/// The document that a reply sends, if it is a feed document.
pub(crate) fn doc_of(
    alloc: Global,
    head: &Head,
    request: &Request,
    reply: Reply,
    version: u32,
) -> Result<Option<SentDoc>, NoMemory>
    ensures { IfOk result (Sends head.now.name.base request.now reply version) }
{
    doc_below(alloc, &head.name.base, request, reply, version)
}

/// The same below a base address.
fn doc_below(
    alloc: Global,
    base: &Base,
    request: &Request,
    reply: Reply,
    version: u32,
) -> Result<Option<SentDoc>, NoMemory>
    ensures { IfOk result (Sends base.now request.now reply version) }
{
    let Reply {
        media,
        location,
        body,
        ..
    } = reply;
    drop(location);
    let Media::Feed = media else {
        drop(body);
        return Ok(None);
    };
    // A feed document is made, in a reply to a request of its address.
    let Some(address) = base.read_target(request.target.slice()) else {
        drop(body);
        return Err(NoMemory);
    };
    let Body::Made(bytes) = body else {
        return Err(NoMemory);
    };
    let Ok(address) = base.print(alloc, address) else {
        drop(bytes);
        return Err(NoMemory);
    };
    Ok(Some(SentDoc {
        address: Bytes::from_vec(address),
        bytes,
        version,
    }))
}
