ghost use Rattle.std.specs.Prelude.{◌≡◌, ℕ, ◌+◌, ◌≤◌, List, length};
ghost use Rattle.member_rules.specs.History.{history_limit};
ghost use Rattle.member_rules.specs.Latest.{latest};
ghost use Rattle.member_rules.specs.Setting.{IsWindowSize};
ghost use Rattle.member_rules.specs.Windows.{last_within, size_set, window_ends, windows_of};
ghost use Rattle.member_rules.specs.declared.operation.Op.{Op as Operation};
ghost use Rattle.archive_sealer.specs.Place.{IsPlaceOf};

use member_rules::{Head, Op, Setting};

/// Where a window of a list of operations begins.
#[derive(Clone, Copy)]
pub(crate) struct Place {
    /// How many windows come before it, and how many operations those have.
    pub(crate) windows: u32,
    pub(crate) before: u32,
    /// How many operations fill it.
    pub(crate) size: u32,
}

impl Place {
    /// The place of the first window.
    fn first(head: &Head) -> Place
        ensures place { (history : List Operation) → IsPlaceOf head.now.window history result }
        ensures windows { result.windows ≡ 0 }
        ensures before { result.before ≡ 0 }
    {
        Place {
            windows: 0,
            before: 0,
            size: head.window,
        }
    }

    /// The place of the next window. The operations fill this one, which is read once.
    fn next(self, history: &[Op]) -> Place
        requires few { length history.now ≤ history_limit }
        requires place { (first : ℕ) × IsPlaceOf first history.now self }
        requires filled { self.before + self.size ≤ length history.now }
        ensures place { (first : ℕ) → IsPlaceOf first history.now self → IsPlaceOf first history.now result }
        ensures windows { result.windows ≡ self.windows + 1 }
        ensures before { result.before ≡ self.before + self.size }
    {
        let end = self.before + self.size;
        let (filled, _) = history.split_at(end as usize);
        let (_, operations) = filled.split_at(self.before as usize);
        Place {
            windows: self.windows + 1,
            before: end,
            size: size_after(self.size, operations),
        }
    }
}

/// The place after the last window that ends within the first `count` operations. It reads the operations of the windows
/// before it once.
pub(crate) fn last_place(head: &Head, history: &[Op], count: u32) -> Place
    requires { (length history.now ≤ history_limit) × (count ≤ length history.now) }
    ensures place { IsPlaceOf head.now.window history.now result }
    ensures last { result.windows ≡ last_within (window_ends head.now.window history.now) count count }
{
    let mut place = Place::first(head);
    while place.size <= count - place.before {
        place = place.next(history);
    }
    place
}

/// The place of the window after this many, which the operations fill. It reads the operations of the windows before it
/// once.
pub(crate) fn place_after(head: &Head, history: &[Op], windows: u32) -> Place
    requires few { length history.now ≤ history_limit }
    requires filled { windows ≤ (windows_of head.now history.now).full }
    ensures place { IsPlaceOf head.now.window history.now result }
    ensures windows { result.windows ≡ windows }
{
    let mut place = Place::first(head);
    while place.windows < windows {
        place = place.next(history);
    }
    place
}

/// The size of windows after these operations, if it was `first` before them.
fn size_after(first: u32, operations: &[Op]) -> u32
    ensures { result ≡ latest size_set first operations.now }
{
    let mut size = first;
    for operation in operations {
        if let Op::Set {
            setting: Setting::Window(new),
            ..
        } = operation
        {
            size = new.get();
        }
    }
    size
}
