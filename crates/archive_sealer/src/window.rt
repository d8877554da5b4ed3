ghost use Rattle.std.specs.Prelude.{◌≡◌, ◌≢◌, ◌↔◌, ◌+◌, ◌<◌, ◌≤◌, [], ◌∷◌, ◌++◌, length, All, IfOk, OnOk, IfSome, IfNone};
ghost use Rattle.std.specs.Prelude.{IsTrue, slice_get, vec_len, vec_capacity};
ghost use Rattle.std.specs.List.{filter_map};
ghost use Rattle.deleted_entries.specs.Item.{item_number};
ghost use Rattle.member_rules.specs.Documents as documents;
ghost use Rattle.member_rules.specs.Head.{HeadValue, window_limit};
ghost use Rattle.member_rules.specs.History.{history_limit};
ghost use Rattle.member_rules.specs.Windows.{windows_of};
ghost use Rattle.archive_sealer.specs.Window.{IsFull, IsOfFeed, IsOpenKind, IsPut, IsSlotOf, IsTouched, open_document};

use crate::document::titled;
use crate::past::Past;
use atom_values::{AtomText, Copies, Many, NoMemory, Stamp};
use atom_writer::{Doc, Kind, MAX_ITEMS};
use chain_links::Span;
use deleted_entries::Item;
use member_rules::{Head, Op, Setting};
use recency_list::{Recency, Steps};
use std::alloc::Global;
use std::marker::{Brand, Model};

/// The open window of a feed, from which its next documents are made. It keeps the last item of each member that its
/// operations name, at most 100, the feed's title, and nothing of the operations before it. So its memory doesn't grow
/// with the history.
///
/// Contracts see the whole history, by a value that takes no bytes.
#[derive(Debug, Drop)]
pub struct Window {
    alloc: Global,
    /// How many operations fill the open window, and the one after it.
    size: u32,
    next_size: u32,
    /// How many windows are sealed, and how many operations those have.
    sealed: u32,
    before: u32,
    /// How many operations the open window has.
    count: u32,
    /// The moment of the last operation.
    last: Option<Stamp>,
    /// The feed's title after the last operation.
    title: AtomText,
    /// A slot for each member that the open window names.
    items: Vec<Item>,
    /// The slots by their members' last operations.
    order: Recency,
    past: Past,
}

impl Model for Window {
    ghost use Rattle.std.specs.Prelude.{◌-◌, min, vec_len, vec_capacity};
    ghost use Rattle.archive_sealer.specs.Window.{IsKeptOf, WindowValue};

    ghost Value = { WindowValue };

    ghost view = { λ w. record {
      first = w.past.first;
      title = w.past.title;
      history = w.past.operations;
      spare = min (vec_capacity w.items - vec_len w.items) (w.order.slots - vec_len w.items);
    } };

    ghost invariant = { λ w. IsKeptOf record {
      size = w.size;
      next_size = w.next_size;
      sealed = w.sealed;
      before = w.before;
      count = w.count;
      last = w.last;
      title = w.title;
      items = w.items.items;
      order = w.order;
    } w.past.first w.past.title w.past.operations };
}

impl Window {
    /// The window of a new feed. The first window has `size` operations, from 1 to 100, and the feed has this title. It
    /// takes the memory for one full window.
    ///
    /// Error: `NoMemory`.
    pub fn new(alloc: Global, size: u32, title: AtomText) -> Result<Window, NoMemory>
        requires { (1 ≤ size) × (size ≤ window_limit) }
        ensures first { IfOk result (λ window. window.first ≡ size) }
        ensures title { IfOk result (λ window. window.title ≡ title) }
        ensures empty { IfOk result (λ window. window.history ≡ []) }
    {
        let items = Vec::with_capacity(alloc, size as usize)?;
        let mut order = Recency::new(alloc);
        order.reserve(size)?;
        let past = Past::new(size, &title);
        Ok(Window {
            alloc,
            size,
            next_size: size,
            sealed: 0,
            before: 0,
            count: 0,
            last: None,
            title,
            items,
            order,
            past,
        })
    }

    /// How many operations were committed.
    pub fn operations(&self) -> u32
        ensures { result ≡ length self.now.history }
    {
        self.before + self.count
    }

    /// The feed's title after the last operation.
    pub fn title(&self) -> &AtomText
        ensures { (head : HeadValue) → IsOfFeed self.now head
            → result.now ≡ (documents.name_of head self.now.history).title }
    {
        &self.title
    }

    /// How many windows are sealed: each full one but the last.
    pub fn sealed(&self) -> u32
        ensures { (head : HeadValue) → IsOfFeed self.now head
            → result ≡ (windows_of head self.now.history).sealed }
    {
        self.sealed
    }

    /// Whether the open window is full: it has as many operations as its size. Then the next operation seals it.
    pub fn is_full(&self) -> bool
        ensures { (head : HeadValue) → IsOfFeed self.now head
            → (IsTrue result ↔ IsFull head self.now.history) }
    {
        self.count == self.size
    }

    /// Makes room for one more operation. It answers `NoMemory` where memory ran out, and then nothing changed but the
    /// room.
    pub fn prepare(&mut self) -> Result<(), NoMemory>
        ensures room { OnOk result (1 ≤ self.new.spare) }
        ensures same { self.new ≡ record self.old { spare = self.new.spare } }
        ensures spare { self.old.spare ≤ self.new.spare }
    {
        self.items.reserve(1)?;
        self.order.reserve(self.items.len() as u32 + 1)
    }

    /// Adds an operation, in the room that `prepare` made. If the open window is full, it is sealed, and the operation is
    /// the first of the next one. A new size holds from the window after the operation's own. It takes no memory, and at
    /// most one look at each member that the window names.
    pub fn commit(&mut self, operation: Op)
        requires room { 1 ≤ self.old.spare }
        requires few { length self.old.history < history_limit }
        ensures history { self.new.history ≡ self.old.history ++ operation ∷ [] }
        ensures first { self.new.first ≡ self.old.first }
        ensures title { self.new.title ≡ self.old.title }
    {
        self.past = Past::with(&self.past, &operation);
        if self.count == self.size {
            self.sealed += 1;
            self.before += self.size;
            self.size = self.next_size;
            self.count = 0;
            self.items.clear();
            self.order.clear();
        }
        self.count += 1;
        self.last = Some(operation.moment());
        match operation {
            Op::Add(entry) | Op::Change(entry) => {
                touch(&mut self.items, &mut self.order, Item::Kept(entry));
            }
            Op::Remove(removal) => {
                touch(
                    &mut self.items,
                    &mut self.order,
                    Item::Gone(removal.tombstone),
                );
            }
            Op::Set { setting, .. } => match setting {
                Setting::Title(title) => self.title = title.into_text(),
                Setting::Window(size) => self.next_size = size.get(),
            },
        }
    }

    /// The subscription document of the history. It is [`crate::subscription`] of all operations, but it looks only at
    /// the open window's members, at most 100, and copies the item of each.
    ///
    /// Error: `NoMemory`.
    pub fn subscription(&self, head: &Head) -> Result<Doc, NoMemory>
        requires { IsOfFeed self.now head.now }
        ensures { IfOk result (λ doc. doc ≡ documents.subscription head.now self.now.history) }
    {
        self.document(head, Kind::Subscription)
    }

    /// The archive of the open window, which is full. It is [`crate::archive`] of the next number, at the same cost as
    /// [`Window::subscription`].
    ///
    /// Error: `NoMemory`.
    pub fn archive(&self, head: &Head) -> Result<Doc, NoMemory>
        requires feed { IsOfFeed self.now head.now }
        requires full { IsFull head.now self.now.history }
        ensures { IfOk result (λ doc. doc ≡ documents.archive head.now self.now.history
            ((windows_of head.now self.now.history).sealed + 1)) }
    {
        self.document(head, Kind::Archive(self.sealed + 1))
    }

    /// The document of this kind that has the open window's operations.
    fn document(&self, head: &Head, kind: Kind) -> Result<Doc, NoMemory>
        requires feed { IsOfFeed self.now head.now }
        requires kind { IsOpenKind head.now self.now.history kind }
        ensures { IfOk result (λ doc. doc ≡ open_document head.now kind self.now.history) }
    {
        let items = copies(self.alloc, self.items.as_slice(), &self.order)?;
        let name = titled(self.alloc, &head.name, &self.title)?;
        let span = Span {
            first: self.before + 1,
            last: self.before + self.count,
        };
        let updated = self.last.unwrap_or(head.created);
        Ok(Doc::new(name, kind, span, self.sealed, updated, items).unwrap())
    }
}

/// Copies of the items, in the order of their slots.
fn copies(alloc: Global, items: &[Item], order: &Recency) -> Result<Many<Item, MAX_ITEMS>, NoMemory>
    requires { All (λ slot. slot < length items.now) order.now.list }
    ensures { IfOk result (λ copies. copies.items
        ≡ filter_map (slice_get items.now) order.now.list) }
{
    let mut copies = Many::new(alloc);
    copies.reserve(items.len())?;
    let mut next = order.front();
    while let Some(slot) = next {
        push_copy(alloc, &mut copies, &items[slot as usize])?;
        next = order.older(slot);
    }
    Ok(copies)
}

/// Adds a copy of the item at the end.
fn push_copy(alloc: Global, copies: &mut Many<Item, MAX_ITEMS>, item: &Item) -> Result<(), NoMemory>
    ensures { OnOk result (copies.new.items ≡ copies.old.items ++ item.now ∷ []) }
{
    let copy = item.copy(alloc)?;
    copies.push(copy).map_err(|_| NoMemory)
}

/// Makes the item that of its member, and its slot the newest.
fn touch(items: &mut Vec<Item>, order: &mut Recency, item: Item)
    requires room { vec_len items.old < vec_capacity items.old }
    requires slots { vec_len items.old < order.old.slots }
    requires few { length items.old.items ≤ window_limit }
    ensures { IsTouched item items.old.items items.new.items order.old order.new }
{
    let slot = put(items, item);
    let mut steps = Steps::<Brand>::new();
    order.touch(slot, &mut steps);
}

/// Puts the item into the slot of its member, or into a new slot if the member has none. Returns the slot.
fn put(items: &mut Vec<Item>, item: Item) -> u32
    requires room { vec_len items.old < vec_capacity items.old }
    requires few { length items.old.items ≤ window_limit }
    ensures { IsPut item items.old.items items.new.items result }
{
    match slot_of(items.as_slice(), item.number()) {
        Some(slot) => {
            items[slot as usize] = item;
            slot
        }
        None => {
            let slot = items.len() as u32;
            items.push(item).unwrap();
            slot
        }
    }
}

/// The slot of the member with this number, if the member has one.
fn slot_of(items: &[Item], number: u32) -> Option<u32>
    requires { length items.now ≤ window_limit }
    ensures found { IfSome result (IsSlotOf number items.now) }
    ensures none { IfNone result (All (λ item. item_number item ≢ number) items.now) }
{
    for (slot, item) in items.iter().enumerate() {
        if item.number() == number {
            return Some(slot as u32);
        }
    }
    None
}
