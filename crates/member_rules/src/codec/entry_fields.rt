use atom_values::{
    Category, Link, MAX_CATEGORIES, MAX_LINKS, MAX_PERSONS, Many, Person, Stamp, Text,
};

/// The first three fields of an entry.
#[derive(Drop)]
pub(crate) struct Dates {
    pub(crate) number: u32,
    pub(crate) edited: Stamp,
    pub(crate) updated: Stamp,
}

/// The fields of an entry before its lists.
#[derive(Drop)]
pub(crate) struct Front {
    pub(crate) dates: Dates,
    pub(crate) title: Text,
    pub(crate) published: Option<Stamp>,
}

/// The lists of persons of an entry.
#[derive(Drop)]
pub(crate) struct Persons {
    pub(crate) authors: Many<Person, MAX_PERSONS>,
    pub(crate) contributors: Many<Person, MAX_PERSONS>,
}

/// The lists of an entry.
#[derive(Drop)]
pub(crate) struct Lists {
    pub(crate) persons: Persons,
    pub(crate) links: Many<Link, MAX_LINKS>,
    pub(crate) categories: Many<Category, MAX_CATEGORIES>,
}

/// The fields of an entry after its lists.
#[derive(Drop)]
pub(crate) struct Texts {
    pub(crate) rights: Option<Text>,
    pub(crate) summary: Option<Text>,
    pub(crate) content: Option<Text>,
}
