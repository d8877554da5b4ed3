ghost use Rattle.std.specs.Prelude.{◌≡◌, ◌⊎◌, ℕ, [], ◌∷◌, Option, Some, map, string_bytes, Ok, Err, IfOk, IfSome};
ghost use Rattle.std.specs.List.{cons_option};
ghost use Rattle.std.specs.Option.{option_copied};
ghost use Rattle.tool_words.specs.Words.{IsApply, IsCommandOf, IsShow};
ghost use Rattle.tool_words.specs.declared.command.Command.{Command as CommandValue};
ghost use Rattle.tool_words.specs.declared.command.Show.{Show as ShowValue};

use crate::command::{Command, Show, WINDOW_LIMIT};
use crate::discover::discover;
use crate::drill::drill;
use crate::fault::WordsFault;
use crate::foreign::foreign;
use crate::init::init;
use crate::mirror::mirror;
use crate::number::number;
use crate::parse::placed;
use crate::relay::relay;
use crate::scrub::scrub;
use crate::serve::serve;
use std::alloc::Global;

/// The name of the positional word of `apply`.
static APPLY_PLACES: [&str; 1] = ["window"];

/// The names of the positional words of `show`.
static SHOW_PLACES: [&str; 2] = ["kind", "number"];

/// The greatest number of an archive or a member.
const NUMBER_LIMIT: u64 = 4_294_967_295;

/// Returns the command that the words after the program's name spell.
///
/// `Usage` if they spell no command. `NoMemory` if memory runs out, whatever the words.
pub fn read_words(alloc: Global, words: &[String]) -> Result<Command, WordsFault>
    // The words are those of the command that is returned.
    ensures found { IfOk result (IsCommandOf (map string_bytes words.now)) }
    // Each command's words are read as that command, unless memory runs out.
    ensures only { (command : CommandValue) → IsCommandOf (map string_bytes words.now) command
        → (result ≡ Ok command) ⊎ (result ≡ Err WordsFault.NoMemory) }
{
    let Some((name, rest)) = words.split_first() else {
        return Err(WordsFault::Usage);
    };
    match name.as_str() {
        "init" => init(alloc, rest),
        "apply" => apply(alloc, rest),
        "show" => show(alloc, rest),
        "serve" => serve(alloc, rest),
        "mirror" => mirror(alloc, rest),
        "audit" => audit(rest),
        "drill" => drill(alloc, rest),
        "foreign" => foreign(alloc, rest),
        "discover" => discover(alloc, rest),
        "relay" => relay(alloc, rest),
        "scrub" => scrub(rest),
        _ => Err(WordsFault::Usage),
    }
}

/// Reads the words after `apply`.
fn apply(alloc: Global, words: &[String]) -> Result<Command, WordsFault>
    ensures found { IfOk result (λ command. (window : Option ℕ) × (command ≡ Command.Apply window)
        × IsApply (map string_bytes words.now) window) }
    ensures only { (window : Option ℕ) → IsApply (map string_bytes words.now) window
        → (result ≡ Ok (Command.Apply window)) ⊎ (result ≡ Err WordsFault.NoMemory) }
{
    let matches = placed(alloc, &APPLY_PLACES, words)?;
    let window = window_of(matches.get_str("window"))?;
    Ok(Command::Apply { window })
}

/// The window of `apply`, if there is a word for it. `Usage` if the word is no number in the range.
fn window_of(word: Option<&str>) -> Result<Option<u32>, WordsFault>
    ensures found { IfOk result (IsApply (cons_option (option_copied word.entry) [])) }
    ensures only { (window : Option ℕ) → IsApply (cons_option (option_copied word.entry) []) window
        → result ≡ Ok window }
{
    let Some(word) = word else {
        return Ok(None);
    };
    let window = number(word.as_bytes(), 1, WINDOW_LIMIT).ok_or(WordsFault::Usage)?;
    Ok(Some(window as u32))
}

/// Reads the words after `audit`, which has none.
fn audit(words: &[String]) -> Result<Command, WordsFault>
    ensures found { IfOk result (λ command. (command ≡ Command.Audit) × (map string_bytes words.now ≡ [])) }
    ensures only { map string_bytes words.now ≡ [] → result ≡ Ok Command.Audit }
{
    match words {
        [] => Ok(Command::Audit),
        _ => Err(WordsFault::Usage),
    }
}

/// Reads the words after `show`.
fn show(alloc: Global, words: &[String]) -> Result<Command, WordsFault>
    ensures found { IfOk result (λ command. (shown : ShowValue) × (command ≡ Command.Show shown)
        × IsShow (map string_bytes words.now) shown) }
    ensures only { (shown : ShowValue) → IsShow (map string_bytes words.now) shown
        → (result ≡ Ok (Command.Show shown)) ⊎ (result ≡ Err WordsFault.NoMemory) }
{
    let matches = placed(alloc, &SHOW_PLACES, words)?;
    let Some(kind) = matches.get_str("kind") else {
        return Ok(Command::Show(Show::Document));
    };
    let Some(shown) = shown_of(kind, matches.get_str("number")) else {
        return Err(WordsFault::Usage);
    };
    Ok(Command::Show(shown))
}

/// The document or listing that `show` prints for `kind` and the word after it. `None` if they are not words of `show`.
fn shown_of(kind: &str, word: Option<&str>) -> Option<Show>
    ensures found { IfSome result (IsShow (kind.now ∷ cons_option (option_copied word.entry) [])) }
    ensures only { (shown : ShowValue) → IsShow (kind.now ∷ cons_option (option_copied word.entry) []) shown
        → result ≡ Some shown }
{
    match word {
        None => match kind {
            "feed" => Some(Show::Feed),
            "pile" => Some(Show::Pile),
            _ => None,
        },
        Some(word) => {
            let number = number(word.as_bytes(), 1, NUMBER_LIMIT)? as u32;
            match kind {
                "archive" => Some(Show::Archive(number)),
                "member" => Some(Show::Member(number)),
                _ => None,
            }
        }
    }
}
