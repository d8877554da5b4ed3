ghost use Rattle.std.specs.Prelude.{◌≡◌, ◌≤◌, length, IfOk};
ghost use Rattle.atom_writer.specs.Doc.{KeepsRules};
ghost use Rattle.member_rules.specs.Documents as documents;
ghost use Rattle.member_rules.specs.Documents.{document_of, name_of};
ghost use Rattle.member_rules.specs.History.{history_limit};
ghost use Rattle.member_rules.specs.Windows.{windows_of};

use crate::items::items;
use crate::place::{last_place, place_after};
use atom_values::{AtomText, Copies, NoMemory};
use atom_writer::{Doc, FeedName, Kind};
use chain_links::Span;
use member_rules::{Head, Op, Setting, plain_last_moment};
use std::alloc::Global;

/// The subscription document of a feed with this head and history: the operations after the last sealed archive.
/// It answers `NoMemory` where memory ran out.
///
/// It looks through the history once for its settings, and copies the last entry of each member that the document names.
pub fn subscription(alloc: Global, head: &Head, history: &[Op]) -> Result<Doc, NoMemory>
    requires { length history.now ≤ history_limit }
    ensures { IfOk result (λ doc. doc ≡ documents.subscription head.now history.now) }
{
    let open = last_place(head, history, (history.len() as u32).saturating_sub(1));
    let name = name_after(alloc, &head.name, history)?;
    document(
        alloc,
        head,
        name,
        Kind::Subscription,
        open.windows,
        open.before,
        history,
    )
}

/// The archive of this number, from 1, of a feed with this head and history. The history has filled that window.
/// It answers `NoMemory` where memory ran out.
///
/// It looks through the operations up to the window's end once for their settings, and copies the last entry of each
/// member that the document names.
pub fn archive(alloc: Global, head: &Head, history: &[Op], number: u32) -> Result<Doc, NoMemory>
    requires few { length history.now ≤ history_limit }
    requires filled { (1 ≤ number) × (number ≤ (windows_of head.now history.now).full) }
    ensures { IfOk result (λ doc. doc ≡ documents.archive head.now history.now number) }
{
    let window = place_after(head, history, number - 1);
    let end = window.before + window.size;
    let (covered, _) = history.split_at(end as usize);
    let name = name_after(alloc, &head.name, covered)?;
    document(
        alloc,
        head,
        name,
        Kind::Archive(number),
        window.windows,
        window.before,
        covered,
    )
}

/// How many windows the history has filled, each of which has an [`archive`].
pub fn full_windows(head: &Head, history: &[Op]) -> u32
    requires { length history.now ≤ history_limit }
    ensures { result ≡ (windows_of head.now history.now).full }
{
    last_place(head, history, history.len() as u32).windows
}

/// How many windows of the history are sealed. A full window is sealed when the next operation comes.
pub fn sealed_windows(head: &Head, history: &[Op]) -> u32
    requires { length history.now ≤ history_limit }
    ensures { result ≡ (windows_of head.now history.now).sealed }
{
    last_place(head, history, (history.len() as u32).saturating_sub(1)).windows
}

/// The document of this kind and this name that has the covered operations after the first `before`.
fn document(
    alloc: Global,
    head: &Head,
    name: FeedName,
    kind: Kind,
    prev: u32,
    before: u32,
    covered: &[Op],
) -> Result<Doc, NoMemory>
    requires within { (before ≤ length covered.now) × (length covered.now ≤ history_limit) }
    requires rules { KeepsRules (document_of head.now kind prev before covered.now) }
    requires name { name ≡ name_of head.now covered.now }
    ensures { IfOk result (λ doc. doc ≡ document_of head.now kind prev before covered.now) }
{
    let (_, open) = covered.split_at(before as usize);
    let items = match items(alloc, open) {
        Ok(items) => items,
        Err(fault) => {
            drop(name);
            return Err(fault);
        }
    };
    let span = Span {
        first: before + 1,
        last: covered.len() as u32,
    };
    let updated = plain_last_moment(head.created, covered);
    Ok(Doc::new(name, kind, span, prev, updated, items).unwrap())
}

/// The feed's name after the operations, with a copy of the title that the last of them set.
#[tactic(auto, unfolding(member_rules::specs::Documents::title_after))]
pub(crate) fn name_after(
    alloc: Global,
    name: &FeedName,
    operations: &[Op],
) -> Result<FeedName, NoMemory>
    ensures { IfOk result (λ after. after ≡ record name.now {
      title = documents.title_after name.now.title operations.now;
    }) }
{
    let mut title = &name.title;
    for operation in operations {
        if let Op::Set {
            setting: Setting::Title(new),
            ..
        } = operation
        {
            title = new.text();
        }
    }
    titled(alloc, name, title)
}

/// The feed's name with this title in place of its first one.
pub(crate) fn titled(alloc: Global, name: &FeedName, title: &AtomText) -> Result<FeedName, NoMemory>
    ensures { IfOk result (λ titled. titled ≡ record name.now { title = title.now }) }
{
    Ok(FeedName {
        base: name.base.copy(alloc)?,
        id: name.id,
        title: title.copy(alloc)?,
        author: name.author.copy(alloc)?,
    })
}
