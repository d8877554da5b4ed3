ghost use Rattle.std.specs.Prelude.{◌≡◌, ◌⊎◌, None, Some, Ok, Err, IfOk, MatchOption, MatchResult, option_map};
ghost use Rattle.atom_values.specs.Ascii.{space};
ghost use Rattle.tool_words.specs.Line as lines;
ghost use Rattle.tool_words.specs.Line.{HasNo, IsFirst, IsLineAsk};
ghost use Rattle.tool_words.specs.declared.line.LineAsk.{LineAsk as AskValue};
ghost use Rattle.tool_words.specs.declared.line.LineAsk.TheVariants.{Add, Remove, Title, Window};

use crate::fault::LineFault;
use atom_values::{AtomText, TextFault};
use chain_links::whole_number;
use std::alloc::Global;

/// The most bytes of a line's title.
const LINE_TITLE_LIMIT: usize = 1_024;

/// The most operations of a line's window.
const LINE_WINDOW_LIMIT: u32 = 100;

/// The ask of a line of `apply`.
#[derive(Debug, Drop)]
pub enum LineAsk {
    /// `add TITLE`: a new member with this title.
    Add(AtomText),
    /// `change N TITLE`: this title for the member of this number.
    Change { number: u32, title: AtomText },
    /// `remove N`: the removal of the member of this number.
    Remove { number: u32 },
    /// `title TITLE`: this title for the feed.
    Title(AtomText),
    /// `window W`: this size for each later window.
    Window(u32),
}

/// Reads a line of `apply`, given without its LF.
///
/// A line is `add TITLE`, `change N TITLE`, `remove N`, `title TITLE` or `window W`, with one space between. N is a
/// decimal number from 1 to 4294967295 and W one from 1 to 100, both without leading zeros. A title has from 0 to 1,024
/// bytes of XML characters.
///
/// `BadLine` for any other line. `NoMemory` if there is no memory for the title.
pub fn read_line(alloc: Global, line: &[u8]) -> Result<LineAsk, LineFault>
    // The line asks for what is returned.
    ensures found { IfOk result (λ ask. lines.line_ask line.now ≡ Some ask) }
    // Each good line is read as what it asks for, unless memory runs out.
    ensures only { (ask : AskValue) → lines.line_ask line.now ≡ Some ask
        → (result ≡ Ok ask) ⊎ (result ≡ Err LineFault.NoMemory) }
    ensures bad { result ≡ Err LineFault.BadLine → lines.line_ask line.now ≡ None }
    // A new title and a new size are within their limits.
    ensures limits { IfOk result IsLineAsk }
{
    if let Some(title) = line.strip_prefix(b"add ") {
        return addition_of(alloc, title);
    }
    if let Some(words) = line.strip_prefix(b"change ") {
        return change_of(alloc, words);
    }
    if let Some(digits) = line.strip_prefix(b"remove ") {
        return removal_of(digits);
    }
    if let Some(title) = line.strip_prefix(b"title ") {
        return feed_title_of(alloc, title);
    }
    match line.strip_prefix(b"window ") {
        Some(digits) => window_of(digits),
        None => Err(LineFault::BadLine),
    }
}

/// The addition of a member with this title.
fn addition_of(alloc: Global, title: &[u8]) -> Result<LineAsk, LineFault>
    ensures found { IfOk result (λ ask. option_map Add (lines.title_of title.now) ≡ Some ask) }
    ensures bad { result ≡ Err LineFault.BadLine → option_map Add (lines.title_of title.now) ≡ None }
{
    let title = title_of(alloc, title)?;
    Ok(LineAsk::Add(title))
}

/// The removal of the member whose number these digits are.
fn removal_of(digits: &[u8]) -> Result<LineAsk, LineFault>
    ensures found { IfOk result (λ ask. option_map Remove (lines.member_number digits.now) ≡ Some ask) }
    ensures bad { result ≡ Err LineFault.BadLine → option_map Remove (lines.member_number digits.now) ≡ None }
{
    let number = number_of(digits)?;
    Ok(LineAsk::Remove { number })
}

/// The change of the feed's title to this one.
fn feed_title_of(alloc: Global, title: &[u8]) -> Result<LineAsk, LineFault>
    ensures found { IfOk result (λ ask. option_map Title (lines.title_of title.now) ≡ Some ask) }
    ensures bad { result ≡ Err LineFault.BadLine → option_map Title (lines.title_of title.now) ≡ None }
{
    let title = title_of(alloc, title)?;
    Ok(LineAsk::Title(title))
}

/// The change of the size of windows to the number that these digits are.
fn window_of(digits: &[u8]) -> Result<LineAsk, LineFault>
    ensures found { IfOk result (λ ask. option_map Window (lines.window_number digits.now) ≡ Some ask) }
    ensures bad { result ≡ Err LineFault.BadLine → option_map Window (lines.window_number digits.now) ≡ None }
{
    match whole_number(digits) {
        Some(size) if size <= LINE_WINDOW_LIMIT => Ok(LineAsk::Window(size)),
        _ => Err(LineFault::BadLine),
    }
}

/// The change that the words ask for: a member's number and a title, with one space between them.
fn change_of(alloc: Global, words: &[u8]) -> Result<LineAsk, LineFault>
    ensures found { IfOk result (λ ask. lines.change_of words.now ≡ Some ask) }
    ensures bad { result ≡ Err LineFault.BadLine → lines.change_of words.now ≡ None }
{
    let Some((digits, title)) = parted(words) else {
        return Err(LineFault::BadLine);
    };
    let number = number_of(digits)?;
    let title = title_of(alloc, title)?;
    Ok(LineAsk::Change { number, title })
}

/// The title, which has at most `LINE_TITLE_LIMIT` bytes of XML characters.
fn title_of(alloc: Global, title: &[u8]) -> Result<AtomText, LineFault>
    ensures found { IfOk result (λ text. lines.title_of title.now ≡ Some text) }
    ensures bad { result ≡ Err LineFault.BadLine → lines.title_of title.now ≡ None }
{
    if title.len() > LINE_TITLE_LIMIT {
        return Err(LineFault::BadLine);
    }
    match AtomText::of(alloc, title) {
        Ok(title) => Ok(title),
        Err(fault) => match fault {
            TextFault::TooLong { .. } | TextFault::NotXmlChar { .. } => Err(LineFault::BadLine),
            TextFault::NoMemory => Err(LineFault::NoMemory),
        },
    }
}

/// The number of a member that the digits are.
fn number_of(digits: &[u8]) -> Result<u32, LineFault>
    ensures { MatchResult result (λ number. lines.member_number digits.now ≡ Some number)
        (λ fault. (fault ≡ LineFault.BadLine) × (lines.member_number digits.now ≡ None)) }
{
    match whole_number(digits) {
        Some(number) => Ok(number),
        None => Err(LineFault::BadLine),
    }
}

/// The text before the first space, and the text after it.
fn parted(words: &[u8]) -> Option<(&[u8], &[u8])>
    ensures { MatchOption result (lines.parted words.now ≡ None)
        (λ parts. lines.parted words.now ≡ Some (parts.0.now, parts.1.now)) }
{
    let at = first_space(words)?;
    Some((&words[..at], &words[at + 1..]))
}

/// The offset of the first space.
fn first_space(bytes: &[u8]) -> Option<usize>
    ensures { MatchOption result (HasNo space bytes.now) (λ at. IsFirst space bytes.now at) }
{
    bytes.iter().position(|b| *b == b' ')
}
