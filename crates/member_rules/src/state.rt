use atom_values::Stamp;

/// The state of a member after some operations.
#[derive(Clone, Copy, Debug, PartialEq, Eq)]
pub enum State {
    /// No member with this number was made.
    Never,
    /// It has an entry with this `updated`. `version` is the operation, counted from 1, that set the entry
    /// ([`crate::versions_set_the_entry`]).
    Live { updated: Stamp, version: u32 },
    /// It was deleted at this moment.
    Gone { when: Stamp },
}
