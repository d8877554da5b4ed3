//! The lines of `discover`.

ghost use Rattle.std.specs.Prelude.{◌≡◌, ◌++◌, IfOk, OnOk, flat_map};
ghost use Rattle.std.specs.List.{list_any};
ghost use Rattle.command_ends.specs.Printed.{printed_answer};
ghost use Rattle.discover_command.specs.Lines.{collection_line, collections_answer, kind_word, missing_answer};

use atom_values::NoMemory;
use command_ends::{Printed, Status, push_address};
use service_reader::Collection;
use std::alloc::Global;

/// What is printed of an address at which the source has no document.
pub(crate) fn missing(alloc: Global, address: &[u8]) -> Result<Printed, NoMemory>
    ensures { IfOk result (λ printed. printed_answer printed ≡ missing_answer address.now) }
{
    let mut text = Vec::new(alloc);
    push_address(&mut text, b"missing ", address)?;
    Ok(Printed {
        status: Status::Incomplete,
        text,
    })
}

/// What is printed of the collections of a document, and the status.
pub(crate) fn printed_of(alloc: Global, collections: &[Collection]) -> Result<Printed, NoMemory>
    ensures { IfOk result (λ printed. printed_answer printed ≡ collections_answer collections.now) }
{
    let mut text = Vec::new(alloc);
    if !takes_any(collections) {
        text.extend_from_slice(b"no collection\n")?;
        return Ok(Printed {
            status: Status::Incomplete,
            text,
        });
    }
    push_collections(&mut text, collections)?;
    Ok(Printed {
        status: Status::Done,
        text,
    })
}

/// Whether one of the collections takes entries.
fn takes_any(collections: &[Collection]) -> bool
    ensures { result ≡ list_any (λ c. c.entries) collections.now }
{
    collections.iter().any(|collection| collection.entries)
}

/// Adds a line for each collection.
fn push_collections(out: &mut Vec<u8>, collections: &[Collection]) -> Result<(), NoMemory>
    ensures { OnOk result (out.new.items ≡ out.old.items ++ flat_map collection_line collections.now) }
{
    for collection in collections {
        push_collection(out, collection)?;
    }
    Ok(())
}

/// Adds the line of a collection.
fn push_collection(out: &mut Vec<u8>, collection: &Collection) -> Result<(), NoMemory>
    ensures { OnOk result (out.new.items ≡ out.old.items ++ collection_line collection.now) }
{
    out.extend_from_slice(b"collection ")?;
    out.extend_from_slice(collection.href.slice())?;
    out.extend_from_slice(kind_word(collection.entries))?;
    Ok(())
}

/// The end of a collection's line.
fn kind_word(entries: bool) -> &'static [u8]
    ensures { result.now ≡ kind_word entries }
{
    if entries { b" entries\n" } else { b" closed\n" }
}
