ghost use Rattle.std.specs.Prelude.{◌≡◌, ◌≤◌, ◌++◌, IfOk, OnOk};
ghost use Rattle.chain_links.specs.Address.{printed};
ghost use Rattle.chain_links.specs.declared.address.Address.TheVariants.{Member};
ghost use Rattle.document_server.specs.Answer.{IsDone, IsOwn, IsRefusal};
ghost use Rattle.document_server.specs.Reply.{done_reply, entry_refusal, full_reply};
ghost use Rattle.document_server.specs.Reply.{IsRefusedBy, made_reply, rule_reply, spaced, why_word};
ghost use Rattle.http_face.specs.Reply.{not_allowed};

use atom_values::{Bytes, NoMemory};
use atom_writer::{FeedName, write_member};
use chain_links::{Address, Base};
use entry_reader::Why;
use feed_disk::Area;
use feed_recovery::PrepareFault;
use http_face::{Allow, Body, Line7, Media, Reply};
use itoa::Buffer;
use member_rules::{Op, RuleFault};
use std::alloc::Global;

/// The reply to a method that the target doesn't allow (RFC 9110 section 15.5.6).
pub(crate) fn refused_method(allow: Allow) -> Reply
    ensures reply { result ≡ not_allowed allow }
    ensures refusal { IsRefusal result }
{
    Reply::not_allowed(allow)
}

/// A reply that is a line which was made for it.
fn made_line(status: u16, text: Vec<u8>) -> Reply
    ensures { result ≡ made_reply status text.items }
{
    Reply {
        status,
        media: Media::Plain,
        location: None,
        allow: None,
        body: Body::Made(Bytes::from_vec(text)),
    }
}

/// The reply to an ask that isn't prepared.
pub(crate) fn refused(alloc: Global, fault: PrepareFault) -> Result<Reply, NoMemory>
    ensures reply { IfOk result (IsRefusedBy fault) }
    ensures refusal { IfOk result IsRefusal }
{
    match fault {
        PrepareFault::Rule(fault) => Ok(refused_by_rule(&fault)),
        PrepareFault::Full {
            area,
            size,
            needed,
            capacity,
        } => full(alloc, area, size, needed, capacity),
        PrepareFault::NoMemory => Err(NoMemory),
    }
}

/// The reply to an ask that the rules of the feed refuse.
fn refused_by_rule(fault: &RuleFault) -> Reply
    ensures reply { result ≡ rule_reply fault.now }
    ensures refusal { IsRefusal result }
{
    match fault {
        RuleFault::NotFound { .. } => Reply::line(404, Line7::NotFound),
        RuleFault::Deleted { .. } => Reply::line(410, Line7::Gone),
        RuleFault::OtherId { .. } => Reply::line(409, Line7::OtherId),
        RuleFault::ClockSpent { .. } => Reply::line(500, Line7::Clock),
        RuleFault::TooLarge { .. } => Reply::line(413, Line7::EntryTooLarge),
        RuleFault::NoMemory => Reply::line(503, Line7::NoMemory),
    }
}

/// Appends a space and a number.
fn push_number(line: &mut Vec<u8>, number: u64) -> Result<(), NoMemory>
    ensures { OnOk result (line.new.items ≡ line.old.items ++ spaced number) }
{
    line.push(b' ')?;
    line.extend_from_slice(Buffer::new().format(number).as_bytes())?;
    Ok(())
}

/// The reply to an operation for which an area of `size` bytes has no room (RFC 4918 section 11.5).
fn full(alloc: Global, area: Area, size: u64, needed: u64, capacity: u64) -> Result<Reply, NoMemory>
    ensures reply { IfOk result (λ reply. reply ≡ full_reply area size needed capacity) }
    ensures refusal { IfOk result IsRefusal }
{
    let mut text = Vec::from_slice(alloc, b"full ")?;
    text.extend_from_slice(match area {
        Area::Journal => b"journal".as_slice(),
        Area::Sealed => b"sealed".as_slice(),
        Area::Mirror => b"mirror".as_slice(),
    })?;
    push_number(&mut text, size)?;
    push_number(&mut text, needed)?;
    push_number(&mut text, capacity)?;
    text.push(b'\n')?;
    Ok(made_line(507, text))
}

/// The name of the reason.
fn word(why: Why) -> &'static [u8]
    ensures { result.now ≡ why_word why }
{
    match why {
        Why::NotUtf8 => b"NotUtf8",
        Why::Doctype => b"Doctype",
        Why::NotWellFormed => b"NotWellFormed",
        Why::TooDeep => b"TooDeep",
        Why::NotAnEntry => b"NotAnEntry",
        Why::Xhtml => b"Xhtml",
        Why::OutOfLine => b"OutOfLine",
        Why::Draft => b"Draft",
        Why::Missing => b"Missing",
        Why::Twice => b"Twice",
        Why::BadDate => b"BadDate",
        Why::TooMany => b"TooMany",
    }
}

/// The reply to a body that isn't read as an entry, for this reason at this offset.
pub(crate) fn refused_entry(alloc: Global, at: usize, why: Why) -> Result<Reply, NoMemory>
    ensures reply { IfOk result (λ reply. reply ≡ entry_refusal at why) }
    ensures refusal { IfOk result IsRefusal }
{
    if why == Why::Draft {
        return Ok(Reply::line(403, Line7::Draft));
    }
    let mut text = Vec::from_slice(alloc, b"entry")?;
    push_number(&mut text, at as u64)?;
    text.push(b' ')?;
    text.extend_from_slice(word(why))?;
    text.push(b'\n')?;
    Ok(made_line(400, text))
}

/// The address of a member.
fn member_address(alloc: Global, base: &Base, number: u32) -> Result<Vec<u8>, NoMemory>
    requires { 1 ≤ number }
    ensures { IfOk result (λ address. address.items ≡ printed base.now (Member number)) }
{
    base.print(alloc, Address::Member(number))
}

/// The reply to a change that was made (RFC 5023 sections 9.2 to 9.4). No request asks for a setting.
pub(crate) fn made_change(alloc: Global, name: &FeedName, operation: &Op) -> Result<Reply, NoMemory>
    ensures reply { IfOk result (λ reply. reply ≡ done_reply name.now operation.now) }
    ensures own { IfOk result IsOwn }
    ensures done { IfOk result IsDone }
{
    match operation {
        Op::Add(entry) => {
            let address = member_address(alloc, &name.base, entry.number)?;
            Ok(Reply {
                status: 201,
                location: Some(Bytes::from_vec(address)),
                ..Reply::document(Media::Entry, write_member(alloc, name, entry)?)
            })
        }
        Op::Change(entry) => Ok(Reply::document(Media::Entry, write_member(alloc, name, entry)?)),
        Op::Remove(_) => Ok(Reply::line(200, Line7::Deleted)),
        Op::Set { .. } => Ok(made_line(200, Vec::from_slice(alloc, b"set\n")?)),
    }
}
