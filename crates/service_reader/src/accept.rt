ghost use Rattle.std.specs.Prelude.{◌≡◌, ◌||◌, false, not};
ghost use Rattle.service_reader.specs.Service.{is_entry_type};
ghost use Rattle.service_reader.specs.ServiceReading.{AreAccepted};

use crate::children::Children;
use xml_tokens::{Element, Elements, TokenFault};

/// The type of Atom entries (RFC 5023 section 12).
const ENTRY: &[u8] = b"application/atom+xml;type=entry";

/// The type of Atom documents (RFC 4287 section 7), which some servers write in its place.
const ATOM: &[u8] = b"application/atom+xml";

/// The `accept` children of a collection that are read so far.
#[derive(Clone, Copy)]
pub(crate) struct Accepts {
    /// There is one.
    any: bool,
    /// One has the type of entries.
    entry: bool,
}

impl Accepts {
    /// None is read.
    pub(crate) fn none() -> Accepts
        ensures { result ≡ record { any = false; entry = false } }
    {
        Accepts {
            any: false,
            entry: false,
        }
    }

    /// Whether a collection with these children takes entries (RFC 5023 section 8.3.4).
    pub(crate) fn entries(self) -> bool
        ensures { result ≡ (not self.any || self.entry) }
    {
        !self.any || self.entry
    }
}

/// Whether the text is the type of entries, in either form.
fn is_entry_type(text: &[u8]) -> bool
    ensures { result ≡ is_entry_type text.now }
{
    text == ENTRY || text == ATOM
}

/// Reads the children of a collection.
#[derive(Drop)]
pub(crate) struct InCollection;

impl Children<Accepts> for InCollection {
    ghost Read = { λ _ _ b accepts. AreAccepted b accepts };

    fn child<'a>(
        &self,
        elements: &mut Elements<'a>,
        child: &Element<'a>,
        into: &mut Accepts,
    ) -> Result<(), TokenFault> {
        if !child.is_app(b"accept") {
            return elements.skip();
        }
        let content = elements.whole_content()?;
        into.any = true;
        into.entry |= is_entry_type(content.trimmed());
        Ok(())
    }
}
