//! The line of a verdict.

ghost use Rattle.std.specs.Prelude.{◌≡◌, ◌++◌, IfOk, OnOk, codes, decimal};
ghost use Rattle.hex.specs.Hex.{encode_lower};
ghost use Rattle.chain_links.specs.Address.{IsAddress};
ghost use Rattle.mirror_commands.specs.Audit.{addressed, verdict_answer, verdict_status, verdict_words};
ghost use Rattle.mirror_commands.specs.VerdictLine.{HasAddress};

use atom_values::NoMemory;
use chain_links::{Address, Base};
use command_ends::{Status, push_numbered};
use coverage_auditor::Verdict;
use hex::encode_to_slice;
use std::alloc::Global;

/// The number of digits of a digest.
const DIGEST_DIGITS: usize = 64;

/// The status of a verdict.
pub(crate) fn verdict_status(verdict: Verdict) -> Status
    ensures { result ≡ verdict_status verdict }
{
    match verdict {
        Verdict::Accepted { .. } => Status::Done,
        _ => Status::Rejected,
    }
}

/// The line of a verdict on a certificate with this base.
pub(crate) fn verdict_line(
    alloc: Global,
    base: &Base,
    verdict: Verdict,
) -> Result<Vec<u8>, NoMemory>
    requires { HasAddress verdict }
    ensures { IfOk result (λ line. line.items ≡ (verdict_answer base.now verdict).printed) }
{
    let mut line = Vec::new(alloc);
    push_verdict(&mut line, base, verdict)?;
    line.extend_from_slice(b"\n")?;
    Ok(line)
}

/// Adds the words of a verdict.
fn push_verdict(line: &mut Vec<u8>, base: &Base, verdict: Verdict) -> Result<(), NoMemory>
    requires { HasAddress verdict }
    ensures { OnOk result (line.new.items ≡ line.old.items ++ verdict_words base.now verdict) }
{
    match verdict {
        Verdict::Accepted { version, live } => { push_numbers(line, b"accepted ", version, live) }
        Verdict::NoDocument { address } => push_address(line, b"no document ", base, address),
        Verdict::DigestDiffers { address, found } => {
            push_address(line, b"digest differs ", base, address)?;
            push_digest(line, &found)
        }
        Verdict::NotADocument { address } => {
            push_address(line, b"not a document ", base, address)
        }
        Verdict::WrongDocument { address } => {
            push_address(line, b"wrong document ", base, address)
        }
        Verdict::VersionDiffers { found } => { push_number(line, b"version differs ", found) }
        Verdict::BrokenChain { address } => push_address(line, b"broken chain ", base, address),
        Verdict::NotTheFirst { first } => push_number(line, b"not the first ", first),
        Verdict::LiveDiffers { count, found } => {
            push_number(line, b"live differs ", count)?;
            push_digest(line, &found)
        }
    }
}

/// Adds words and a number.
fn push_number(line: &mut Vec<u8>, words: &[u8], number: u32) -> Result<(), NoMemory>
    ensures { OnOk result (line.new.items ≡ line.old.items ++ (words.now ++ decimal number)) }
{
    push_numbered(line, words, number, b"")
}

/// Adds words and two numbers.
fn push_numbers(line: &mut Vec<u8>, words: &[u8], first: u32, second: u32) -> Result<(), NoMemory>
    ensures { OnOk result (line.new.items
        ≡ line.old.items ++ (words.now ++ decimal first ++ codes " " ++ decimal second)) }
{
    push_numbered(line, words, first, b" ")?;
    push_number(line, b"", second)
}

/// Adds words and an address below the base.
fn push_address(
    line: &mut Vec<u8>,
    words: &[u8],
    base: &Base,
    address: Address,
) -> Result<(), NoMemory>
    requires { IsAddress address }
    ensures { OnOk result (line.new.items ≡ line.old.items ++ addressed words.now base.now address) }
{
    line.extend_from_slice(words)?;
    base.print_into(line, address)
}

/// Adds a space and the digits of a digest.
fn push_digest(line: &mut Vec<u8>, digest: &[u8; 32]) -> Result<(), NoMemory>
    ensures { OnOk result (line.new.items ≡ line.old.items ++ (codes " " ++ encode_lower digest.now)) }
{
    let mut digits = [0; DIGEST_DIGITS];
    // The room is exactly that of the digits, so this can't fail.
    let _ = encode_to_slice(digest.as_slice(), &mut digits);
    line.extend_from_slice(b" ")?;
    line.extend_from_slice(&digits)?;
    Ok(())
}
