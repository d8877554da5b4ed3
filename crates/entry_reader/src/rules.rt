//! Contracts of another crate's values, for a proof alone.
//!
//! The types of `atom_values` keep rules, such as the length of a text. A contract sees only a value, and not the
//! rules of its type. `read_entry` promises the rules of the draft that it returns, and `show_rules` makes them
//! known to its proof. Nothing here changes a value or has an effect when it runs.

use atom_values::{AtomText, Category, Copies, Draft, Link, Many, Person, Stamp, Text};

/// A value whose type keeps rules, which `Copies` names. A copy would state them too, but takes memory.
pub(crate) trait Ruled: Copies {
    /// States that this value keeps the rules of its type. It changes nothing.
    fn show_rules(&self)
        ensures { Self.rules self.now };
}

impl<T: Ruled> Ruled for Option<T> {
    fn show_rules(&self) {
        if let Some(value) = self {
            value.show_rules();
        }
    }
}

impl<T: Ruled + Drop, const MAX: u32> Ruled for Many<T, MAX> {
    fn show_rules(&self) {
        for item in self.as_slice() {
            item.show_rules();
        }
    }
}

impl Ruled for AtomText {
    fn show_rules(&self) {
        let _bytes = self.bytes();
    }
}

impl Ruled for Stamp {
    fn show_rules(&self) {
        let _millis = self.millis();
    }
}

impl Ruled for Text {
    fn show_rules(&self) {
        self.value.show_rules();
    }
}

impl Ruled for Person {
    fn show_rules(&self) {
        self.name.show_rules();
        self.uri.show_rules();
        self.email.show_rules();
    }
}

impl Ruled for Link {
    fn show_rules(&self) {
        self.href.show_rules();
        self.rel.show_rules();
        self.media.show_rules();
        self.hreflang.show_rules();
        self.title.show_rules();
        self.length.show_rules();
    }
}

impl Ruled for Category {
    fn show_rules(&self) {
        self.term.show_rules();
        self.scheme.show_rules();
        self.label.show_rules();
    }
}

impl Ruled for Draft {
    fn show_rules(&self) {
        self.id.show_rules();
        self.title.show_rules();
        self.updated.show_rules();
        self.published.show_rules();
        self.authors.show_rules();
        self.contributors.show_rules();
        self.links.show_rules();
        self.categories.show_rules();
        self.rights.show_rules();
        self.summary.show_rules();
        self.content.show_rules();
    }
}
