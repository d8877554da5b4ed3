ghost use Rattle.std.specs.Prelude.{◌≡◌, ◌⊎◌, ℕ, List, Some, codes, map, string_bytes, Ok, Err, IfOk};
ghost use Rattle.atom_writer.specs.declared.doc.FeedName.{FeedName as NameValue};
ghost use Rattle.tool_words.specs.Parse.{value_in};
ghost use Rattle.tool_words.specs.Words.{IsFeedIdText, IsInit, IsNamed, IsNameText, IsNumberOr, window_limit, default_window};
ghost use Rattle.tool_words.specs.declared.command.Command.{Command as CommandValue};

use crate::base::base;
use crate::capacity::capacity;
use crate::command::{Command, WINDOW_LIMIT};
use crate::fault::WordsFault;
use crate::number::number;
use crate::parse::{parsed, required};
use atom_values::{AtomText, TextFault};
use atom_writer::FeedName;
use clap::ArgMatches;
use deleted_entries::FeedId;
use std::alloc::Global;

/// The names of the options of `init`.
static INIT_OPTIONS: [&str; 6] = ["base", "uuid", "title", "author", "window", "capacity"];

/// The window if `--window` is left out.
const DEFAULT_WINDOW: u32 = 10;

/// The most bytes of a feed's title, and of its author.
const NAME_LIMIT: usize = 1_024;

/// Reads the words after `init`.
pub(crate) fn init(alloc: Global, words: &[String]) -> Result<Command, WordsFault>
    ensures found { IfOk result (λ command. (name : NameValue) × (window capacity : ℕ)
        × (command ≡ Command.Init name window capacity)
        × IsInit (map string_bytes words.now) name window capacity) }
    ensures only { (name : NameValue) (window capacity : ℕ)
        → IsInit (map string_bytes words.now) name window capacity
        → (result ≡ Ok (Command.Init name window capacity)) ⊎ (result ≡ Err WordsFault.NoMemory) }
{
    let matches = parsed(alloc, &INIT_OPTIONS, &[], words)?;
    let name = feed_name(alloc, &matches)?;
    let window = window(&matches)?;
    let capacity = capacity(&matches)?;
    Ok(Command::Init {
        name,
        window,
        capacity,
    })
}

/// The feed's name, from the values of `--base`, `--uuid`, `--title` and `--author`.
///
/// `Usage` if one of them is left out or has another form.
fn feed_name(alloc: Global, matches: &ArgMatches<'_>) -> Result<FeedName, WordsFault>
    ensures found { IfOk result (IsNamed (value_in matches.now)) }
    ensures only { (name : NameValue) → IsNamed (value_in matches.now) name
        → (result ≡ Ok name) ⊎ (result ≡ Err WordsFault.NoMemory) }
{
    let base = base(alloc, matches)?;
    let id = feed_id(required(matches, "uuid")?)?;
    let title = name_text(alloc, required(matches, "title")?)?;
    let author = name_text(alloc, required(matches, "author")?)?;
    Ok(FeedName {
        base,
        id,
        title,
        author,
    })
}

/// The value of `--window`, or the default.
///
/// `Usage` if the value is no number in the range.
fn window(matches: &ArgMatches<'_>) -> Result<u32, WordsFault>
    ensures found { IfOk result (IsNumberOr default_window 1 window_limit
        (value_in matches.now (codes "window"))) }
    ensures only { (n : ℕ) → IsNumberOr default_window 1 window_limit
        (value_in matches.now (codes "window")) n → result ≡ Ok n }
{
    match matches.get_str("window") {
        None => Ok(DEFAULT_WINDOW),
        Some(word) => {
            let window = number(word.as_bytes(), 1, WINDOW_LIMIT).ok_or(WordsFault::Usage)?;
            Ok(window as u32)
        }
    }
}

/// The identifier with this text. `Usage` if it is no feed's.
fn feed_id(text: &str) -> Result<FeedId, WordsFault>
    ensures found { IfOk result (λ id. IsFeedIdText (Some text.now) id) }
    ensures only { (id : List ℕ) → IsFeedIdText (Some text.now) id → result ≡ Ok id }
{
    FeedId::parse(text.as_bytes()).ok_or(WordsFault::Usage)
}

/// The title or the author with this text. `Usage` if it is too long, or isn't XML text.
fn name_text(alloc: Global, text: &str) -> Result<AtomText, WordsFault>
    ensures found { IfOk result (IsNameText (Some text.now)) }
    ensures refused { result ≡ Err WordsFault.Usage → (title : List ℕ) → ¬ IsNameText (Some text.now) title }
{
    if text.len() > NAME_LIMIT {
        return Err(WordsFault::Usage);
    }
    match AtomText::of(alloc, text.as_bytes()) {
        Ok(text) => Ok(text),
        Err(TextFault::NoMemory) => Err(WordsFault::NoMemory),
        Err(_) => Err(WordsFault::Usage),
    }
}
