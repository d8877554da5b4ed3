use crate::setting::{ShortText, WindowSize};
use atom_values::Stamp;

/// The two texts of a feed's name.
#[derive(Drop)]
pub(crate) struct Titles {
    pub(crate) title: ShortText,
    pub(crate) author: ShortText,
}

/// The fields of a head after the feed's name.
#[derive(Drop)]
pub(crate) struct Settings {
    pub(crate) window: WindowSize,
    pub(crate) capacity: u64,
    pub(crate) created: Stamp,
}
