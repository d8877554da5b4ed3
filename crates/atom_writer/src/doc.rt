ghost use Rattle.std.specs.Prelude.{◌≡◌, ◌≤◌, ◌↔◌, length, map, nat_eq, IsTrue, IsSome, IfSome};
ghost use Rattle.std.specs.List.{IsDistinct};
ghost use Rattle.std.specs.List.Sorted.{IsStrictlyIncreasing};
ghost use Rattle.deleted_entries.specs.Item.{item_number};
ghost use Rattle.atom_writer.specs.Doc.{is_placed, span_len};

use atom_values::{AtomText, Copies, Many, NoMemory, Stamp};
use chain_links::{Address, Base, Place, Span};
use deleted_entries::{FeedId, Item};
use std::alloc::Global;
use std::marker::Model;

/// The greatest number of operations that a document covers, and so of its items.
pub const MAX_ITEMS: u32 = 100;

/// The greatest number of an archive: its document names the next one, whose number is a `u32`.
pub const MAX_ARCHIVE: u32 = u32::MAX - 1;

/// The name of a feed: its base address, identifier, title and author. Each document of the feed states it.
#[derive(Debug, Drop)]
pub struct FeedName {
    pub base: Base,
    pub id: FeedId,
    pub title: AtomText,
    pub author: AtomText,
}

impl Copies for FeedName {
    ghost use Rattle.atom_writer.specs.Doc.{IsFeedName};

    ghost rules = { λ name. IsFeedName name };

    fn copy(&self, alloc: Global) -> Result<FeedName, NoMemory> {
        let id = self.id.copy(alloc)?;
        let base = self.base.copy(alloc)?;
        let title = self.title.copy(alloc)?;
        let author = self.author.copy(alloc)?;
        Ok(FeedName {
            base,
            id,
            title,
            author,
        })
    }
}

/// The kind of a feed's document (RFC 5005 section 4).
#[derive(Clone, Copy, Debug, PartialEq, Eq)]
pub enum Kind {
    /// The subscription document, which covers the newest operations.
    Subscription,
    /// The archive of this number, counted from 1. Its text never changes.
    Archive(u32),
}

/// A feed document: a subscription document or an archive. It keeps the rules that [`Doc::new`] lists.
#[derive(Debug, Drop)]
pub struct Doc {
    pub name: FeedName,
    pub kind: Kind,
    /// The operations that the document covers.
    pub span: Span,
    /// The number of the archive before the document, or 0 if there is none.
    pub prev: u32,
    /// The timestamp of the last change.
    pub updated: Stamp,
    /// The members that the operations name, newest operation first, with distinct numbers.
    pub items: Many<Item, MAX_ITEMS>,
}

impl Model for Doc {
    ghost use Rattle.atom_writer.specs.Doc.{DocValue, KeepsRules};

    ghost Value = { DocValue };

    ghost view = { λ d. record {
      name = d.name;
      kind = d.kind;
      span = d.span;
      prev = d.prev;
      updated = d.updated;
      items = d.items.items;
    } };

    ghost invariant = { λ d. KeepsRules record {
      name = d.name;
      kind = d.kind;
      span = d.span;
      prev = d.prev;
      updated = d.updated;
      items = d.items.items;
    } };
}

impl Kind {
    ghost use Rattle.atom_writer.specs.Pieces.{own_address};

    /// The address of a document of this kind.
    pub fn address(self) -> Address
        ensures { result ≡ own_address self }
    {
        match self {
            Kind::Subscription => Address::Feed,
            Kind::Archive(number) => Address::Archive(number),
        }
    }
}

impl Doc {
    ghost use Rattle.atom_writer.specs.Doc.{DocValue, KeepsRules};
    ghost use Rattle.atom_writer.specs.Pieces.{own_address};

    /// Returns the document of these parts, or `None` if one of these rules fails:
    ///
    /// - A subscription document has the span from 1 to 0, or one with `1 <= first <= last`. Its `prev` is 0 exactly
    ///   if `first` is 1.
    /// - An archive has a number from 1 to `MAX_ARCHIVE`, `prev` is one less, and `first <= last`. Its `first` is 1
    ///   exactly in archive 1.
    /// - The span has at most `MAX_ITEMS` operations, and the document at most as many items as the span has
    ///   operations.
    /// - The items have distinct numbers.
    ///
    /// Takes no memory.
    pub fn new(
        name: FeedName,
        kind: Kind,
        span: Span,
        prev: u32,
        updated: Stamp,
        items: Many<Item, MAX_ITEMS>,
    ) -> Option<Doc>
        ensures rules { IsSome result ↔ KeepsRules record {
          name = name;
          kind = kind;
          span = span;
          prev = prev;
          updated = updated;
          items = items.items;
        } }
        ensures parts { IfSome result (λ doc. doc ≡ record {
          name = name;
          kind = kind;
          span = span;
          prev = prev;
          updated = updated;
          items = items.items;
        }) }
    {
        if is_placed(kind, span, prev)
            && has_room(span, items.as_slice())
            && are_distinct(items.as_slice())
        {
            Some(Doc {
                name,
                kind,
                span,
                prev,
                updated,
                items,
            })
        } else {
            None
        }
    }

    /// The document's place in the chain.
    pub fn place(&self) -> Place
        ensures span { result.span ≡ self.now.span }
        ensures prev { result.prev ≡ self.now.prev }
        ensures address { result.address ≡ own_address self.now.kind }
        ensures rules { KeepsRules self.now }
    {
        Place {
            address: self.kind.address(),
            span: self.span,
            prev: self.prev,
        }
    }
}

impl Copies for Doc {
    ghost use Rattle.atom_writer.specs.Doc.{IsDoc};

    ghost rules = { λ doc. IsDoc doc };

    fn copy(&self, alloc: Global) -> Result<Doc, NoMemory> {
        let first = self.span.first.copy(alloc)?;
        let last = self.span.last.copy(alloc)?;
        let prev = self.prev.copy(alloc)?;
        let updated = self.updated.copy(alloc)?;
        let name = self.name.copy(alloc)?;
        let items = self.items.copy(alloc)?;
        Ok(Doc {
            name,
            kind: self.kind,
            span: Span { first, last },
            prev,
            updated,
            items,
        })
    }
}

/// Whether a document of this kind may have this span and this `prev`, by the rules of [`Doc::new`]. Takes no memory.
pub fn is_placed(kind: Kind, span: Span, prev: u32) -> bool
    ensures { result ≡ is_placed kind span prev }
{
    match kind {
        Kind::Subscription => {
            (span.first == 1 && span.last == 0 || span.first <= span.last)
                && span.first >= 1
                && (prev == 0) == (span.first == 1)
        }
        Kind::Archive(number) => {
            number >= 1
                && number <= MAX_ARCHIVE
                && prev == number - 1
                && span.first <= span.last
                && (span.first == 1) == (number == 1)
        }
    }
}

/// Whether the span has at most `MAX_ITEMS` operations, and at least as many operations as there are items.
fn has_room(span: Span, items: &[Item]) -> bool
    ensures { IsTrue result ↔ (span_len span ≤ MAX_ITEMS) × (length items.now ≤ span_len span) }
{
    let operations = (u64::from(span.last) + 1).saturating_sub(u64::from(span.first));
    operations <= u64::from(MAX_ITEMS) && items.len() as u64 <= operations
}

/// Whether the items' numbers are distinct. A copy of them is sorted, so that equal numbers are neighbours.
fn are_distinct(items: &[Item]) -> bool
    requires { length items.now ≤ MAX_ITEMS }
    ensures { IsTrue result ↔ IsDistinct nat_eq (map item_number items.now) }
{
    let mut room = [0; MAX_ITEMS as usize];
    let numbers = &mut room[..items.len()];
    copy_numbers(items, numbers);
    numbers.sort_unstable();
    rises(numbers)
}

/// Writes the items' numbers to `numbers`, in order.
fn copy_numbers(items: &[Item], numbers: &mut [u32])
    requires { length numbers.old ≡ length items.now }
    ensures { numbers.new ≡ map item_number items.now }
{
    for (at, item) in items.iter().enumerate() {
        numbers[at] = item.number();
    }
}

/// Whether each number is greater than the one before it.
fn rises(numbers: &[u32]) -> bool
    ensures { IsTrue result ↔ IsStrictlyIncreasing numbers.now }
{
    numbers.is_sorted_by(|before, after| before < after)
}
