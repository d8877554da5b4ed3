use atom_values::{
    Category, Link, MAX_CATEGORIES, MAX_LINKS, MAX_PERSONS, Many, Person, Stamp, Text,
};

/// The dates of an entry.
#[derive(Drop)]
pub(crate) struct Dates {
    pub(crate) updated: Stamp,
    pub(crate) published: Option<Stamp>,
    pub(crate) edited: Stamp,
}

/// The parts of an entry before its authors.
#[derive(Drop)]
pub(crate) struct Front {
    pub(crate) number: u32,
    pub(crate) title: Text,
    pub(crate) dates: Dates,
}

/// The text constructs after an entry's categories.
#[derive(Drop)]
pub(crate) struct Texts {
    pub(crate) rights: Option<Text>,
    pub(crate) summary: Option<Text>,
    pub(crate) content: Option<Text>,
}

/// The parts of an entry after its link for editing.
#[derive(Drop)]
pub(crate) struct Details {
    pub(crate) links: Many<Link, MAX_LINKS>,
    pub(crate) categories: Many<Category, MAX_CATEGORIES>,
    pub(crate) texts: Texts,
}

/// The parts of an entry after its authors. `edit` is the number of the member that the link for editing names.
#[derive(Drop)]
pub(crate) struct Back {
    pub(crate) contributors: Many<Person, MAX_PERSONS>,
    pub(crate) edit: u32,
    pub(crate) details: Details,
}
