ghost use Rattle.std.specs.Prelude.{◌≡◌, ℕ, ◌+◌, ◌-◌, ◌<◌, ◌≤◌, ◌↔◌, [], ◌∷◌, ◌++◌, length, ◌⊎◌, IfErr, OnOk, OnErr, slice_get, option_copied, vec_len, vec_capacity};
ghost use Rattle.std.specs.Cmp.{on_per};
ghost use Rattle.std.specs.Cmp.Lexicographic.{lists_per, pointwise};
ghost use Rattle.std.specs.Fn.{CalledAt};
ghost use Rattle.std.specs.List.Retain.{IsFiltered};

use crate::copies::Copies;
use crate::memory::NoMemory;
use std::alloc::Global;
use std::error::Error;
use std::fmt;
use std::marker::Model;

/// A list of at most `MAX` items, for input whose size must be bounded. Contracts see the items and the spare room,
/// which is the number of pushes that need no memory.
#[derive(Debug, Drop)]
pub struct Many<T, const MAX: u32> {
    items: Vec<T>,
}

impl<T, const MAX: u32> Model for Many<T, MAX> {
    ghost use Rattle.std.specs.Prelude.{◌-◌, ◌≤◌, length, vec_len, vec_capacity};
    ghost use Rattle.atom_values.specs.Listed.{Listed};

    ghost Value = { Listed T };

    ghost view = { λ m. record { items = m.items.items; spare = vec_capacity m.items - vec_len m.items } };

    ghost invariant = { λ m. length m.items.items ≤ MAX };
}

/// Why an item was not added to a list.
#[derive(Clone, Copy, Debug, PartialEq, Eq)]
pub enum ListFault {
    /// The list already has its greatest number of items, which is `count`.
    TooMany { count: usize },
    /// The item needed memory, and none was left.
    NoMemory,
}

impl fmt::Display for ListFault {
    fn fmt<W: fmt::Write>(&self, f: &mut fmt::Formatter<W>) -> fmt::Result {
        match self {
            ListFault::TooMany { count } => write!(f, "the list is full with {count} items"),
            ListFault::NoMemory => write!(f, "out of memory"),
        }
    }
}

impl Error for ListFault {}

impl<T, const MAX: u32> Many<T, MAX> {
    /// The empty list. Takes no memory.
    pub fn new(alloc: Global) -> Many<T, MAX>
        ensures { result.items ≡ [] }
    {
        Many {
            items: Vec::new(alloc),
        }
    }

    /// The number of items.
    pub fn len(&self) -> usize
        ensures count { result ≡ length self.now.items }
        ensures within { result ≤ MAX }
    {
        self.items.len()
    }

    /// The items.
    pub fn as_slice(&self) -> &[T]
        ensures items { result.now ≡ self.now.items }
        ensures within { length self.now.items ≤ MAX }
    {
        self.items.as_slice()
    }

    /// The items, without a copy.
    pub fn into_vec(self) -> Vec<T>
        ensures items { result.items ≡ self.items }
        ensures within { length self.items ≤ MAX }
    {
        self.items
    }

    /// The item at an index from 0, or `None` past the end.
    pub fn get(&self, at: usize) -> Option<&T>
        ensures { option_copied result ≡ slice_get self.now.items at }
    {
        self.items.get(at)
    }
}

impl<T: Drop, const MAX: u32> Many<T, MAX> {
    /// Adds the item at the end. `TooMany` exactly if the list has `MAX` items, `NoMemory` only if there is no spare
    /// room. An error leaves the list unchanged and drops the item.
    pub fn push(&mut self, item: T) -> Result<(), ListFault>
        ensures ok { OnOk result (self.new.items ≡ self.old.items ++ item ∷ []) }
        ensures full { (result ≡ Err (ListFault.TooMany (length self.old.items)))
            ↔ (length self.old.items ≡ MAX) }
        ensures refusals { IfErr result (λ fault. (fault ≡ ListFault.TooMany (length self.old.items))
            ⊎ (fault ≡ ListFault.NoMemory)) }
        ensures spare { result ≡ Err ListFault.NoMemory → self.old.spare ≡ 0 }
        ensures used { OnOk result (self.old.spare ≤ self.new.spare + 1) }
        ensures err { OnErr result (self.new.items ≡ self.old.items) }
    {
        let count = self.items.len();
        if count == MAX as usize {
            return Err(ListFault::TooMany { count });
        }
        match self.items.push(item) {
            Ok(()) => Ok(()),
            Err(_) => Err(ListFault::NoMemory),
        }
    }

    /// Makes room, so that the next `more` pushes don't return `NoMemory`. `NoMemory` if there is no memory for it.
    pub fn reserve(&mut self, more: usize) -> Result<(), NoMemory>
        ensures items { self.new.items ≡ self.old.items }
        ensures ok { OnOk result (more ≤ self.new.spare) }
        ensures spare { self.old.spare ≤ self.new.spare }
    {
        self.items.reserve(more)?;
        Ok(())
    }

    /// Removes the items that fail the test and leaves the others in order. Takes no memory.
    ///
    /// Private to the crate, since its contract says nothing of the spare room.
    pub(crate) fn retain<F: FnMut(&T) -> bool>(&mut self, keep: F)
        requires { F.IsAlwaysCallable keep }
        ensures { IsFiltered (CalledAt F.FnMut) keep self.old.items self.new.items }
    {
        self.items.retain(keep);
    }
}

impl<T: PartialEq, const MAX: u32> PartialEq for Many<T, MAX> {
    ghost eq = { λ one other. pointwise T.eq one.items other.items };

    ghost laws = { on_per (λ many. many.items) (lists_per T.laws) };

    fn eq(&self, other: &Many<T, MAX>) -> bool {
        self.as_slice() == other.as_slice()
    }
}

impl<T: Copies + Drop, const MAX: u32> Copies for Many<T, MAX> {
    ghost use Rattle.std.specs.Prelude.{map};
    ghost use Rattle.atom_values.specs.Listed.{IsListOf};

    ghost copied = { λ many. record { items = map T.copied many.items; spare = 0 } };

    ghost rules = { λ many. IsListOf MAX T.rules many.items };

    fn copy(&self, alloc: Global) -> Result<Many<T, MAX>, NoMemory> {
        let mut items = Vec::with_capacity(alloc, self.items.len())?;
        for item in self.items.as_slice() {
            items.push(item.copy(alloc)?)?;
        }
        Ok(Many { items })
    }
}
