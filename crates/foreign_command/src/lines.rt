//! The lines of `foreign`.

ghost use Rattle.std.specs.Prelude.{◌≡◌, ◌++◌, ℕ, List, IfOk, OnOk, codes, decimal, flat_map};
ghost use Rattle.feed_reader.specs.declared.values.ForeignEntry.{ForeignEntry as ForeignEntryValue};
ghost use Rattle.command_ends.specs.Printed.{printed_answer};
ghost use Rattle.atom_values.specs.Stamp as stamp;
ghost use Rattle.foreign_command.specs.Lines.{complete_line, entry_line, foreign_answer, not_read_line};

use atom_values::{NoMemory, Stamp, escape_into};
use command_ends::{Printed, Status, push_address, push_numbered};
use feed_reader::ForeignEntry;
use foreign_mirror::{ChainEnd, Foreign};
use itoa::Buffer;
use std::alloc::Global;

/// What is printed of a walk, and the status.
pub(crate) fn printed_of(alloc: Global, foreign: &Foreign) -> Result<Printed, NoMemory>
    ensures { IfOk result (λ printed. printed_answer printed
        ≡ foreign_answer foreign.now.docs foreign.now.live.items foreign.now.end) }
{
    let mut text = Vec::new(alloc);
    push_lines(&mut text, foreign)?;
    Ok(Printed {
        status: status_of(&foreign.end),
        text,
    })
}

/// The status of a walk's end.
fn status_of(end: &ChainEnd) -> Status
    ensures { (docs : ℕ) (live : List ForeignEntryValue) → result ≡ (foreign_answer docs live end.now).status }
{
    match end {
        ChainEnd::Complete => Status::Done,
        _ => Status::Incomplete,
    }
}

/// Adds the lines of a walk: those of the live entries if it is complete, and else the line of its end.
fn push_lines(out: &mut Vec<u8>, foreign: &Foreign) -> Result<(), NoMemory>
    ensures { OnOk result (out.new.items ≡ out.old.items
        ++ (foreign_answer foreign.now.docs foreign.now.live.items foreign.now.end).printed) }
{
    match &foreign.end {
        ChainEnd::Complete => {
            let live = foreign.live.as_slice();
            push_entries(out, live)?;
            push_complete(out, foreign.docs, live.len())
        }
        ChainEnd::Again { address } => push_address(out, b"chain again ", address.slice()),
        ChainEnd::NotHttp { address } => push_address(out, b"not http ", address.slice()),
        ChainEnd::TooMany => {
            out.extend_from_slice(b"too many documents\n")?;
            Ok(())
        }
        ChainEnd::Missing { address } => push_address(out, b"missing ", address.slice()),
        ChainEnd::NotRead { address, at, .. } => push_not_read(out, address.slice(), *at),
        ChainEnd::OtherFeed { address } => push_address(out, b"other feed ", address.slice()),
    }
}

/// Adds a line for each live entry.
fn push_entries(out: &mut Vec<u8>, live: &[ForeignEntry]) -> Result<(), NoMemory>
    ensures { OnOk result (out.new.items ≡ out.old.items ++ flat_map entry_line live.now) }
{
    for entry in live {
        push_entry(out, entry)?;
    }
    Ok(())
}

/// Adds the line of a live entry.
fn push_entry(out: &mut Vec<u8>, entry: &ForeignEntry) -> Result<(), NoMemory>
    ensures { OnOk result (out.new.items ≡ out.old.items ++ entry_line entry.now) }
{
    out.extend_from_slice(b"entry ")?;
    escape_into(out, &entry.id, true)?;
    push_moment(out, entry.updated)?;
    escape_into(out, &entry.title, true)?;
    out.extend_from_slice(b"\n")?;
    Ok(())
}

/// Adds the printed moment between two spaces.
fn push_moment(out: &mut Vec<u8>, moment: Stamp) -> Result<(), NoMemory>
    ensures { OnOk result (out.new.items
        ≡ out.old.items ++ (codes " " ++ stamp.printed moment ++ codes " ")) }
{
    let mut buffer = [0u8; 24];
    let length = moment.print(&mut buffer);
    out.extend_from_slice(b" ")?;
    out.extend_from_slice(&buffer[..length])?;
    out.extend_from_slice(b" ")?;
    Ok(())
}

/// Adds the line of a complete walk.
fn push_complete(out: &mut Vec<u8>, docs: u32, live: usize) -> Result<(), NoMemory>
    ensures { OnOk result (out.new.items ≡ out.old.items ++ complete_line docs live) }
{
    push_numbered(out, b"complete ", docs, b" ")?;
    push_count(out, live)
}

/// Adds the line of a document that is refused at an offset.
fn push_not_read(out: &mut Vec<u8>, address: &[u8], at: usize) -> Result<(), NoMemory>
    ensures { OnOk result (out.new.items ≡ out.old.items ++ not_read_line address.now at) }
{
    out.extend_from_slice(b"not read ")?;
    out.extend_from_slice(address)?;
    out.extend_from_slice(b" ")?;
    push_count(out, at)
}

/// Adds a number and LF.
fn push_count(out: &mut Vec<u8>, number: usize) -> Result<(), NoMemory>
    ensures { OnOk result (out.new.items ≡ out.old.items ++ (decimal number ++ codes "\n")) }
{
    let mut buffer = Buffer::new();
    out.extend_from_slice(buffer.format(number).as_bytes())?;
    out.extend_from_slice(b"\n")?;
    Ok(())
}
