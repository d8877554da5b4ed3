ghost use Rattle.std.specs.Prelude.{◌≡◌, List, None, Some, IsTrue, IfErr, IfOk, OnErr, MatchResult, true, false, map, string_bytes};
ghost use Rattle.clap.specs.Words.{HasMatchesOf, app_of, rule_of, takes};
ghost use Rattle.tool_words.specs.Options.{AreOptions, Given};
ghost use Rattle.tool_words.specs.Parse.{ArePlaces, Match, flag_rule, option_rule, options_app, place_rule, places_app, value_in};
ghost use Rattle.tool_words.specs.Reading.{can_be_read, names_of};

use crate::fault::WordsFault;
use crate::options::{are_options, are_values};
use clap::error::ErrorKind;
use clap::{Arg, ArgAction, ArgMatches};
use std::alloc::{AllocError, Global};

/// Parses words as options of `names` and flags of `flags`, in any order, each at most once.
///
/// `Usage` if the words are spelt in another way. `NoMemory` if memory runs out.
///
/// The words are tested before `clap` parses them, since `clap` takes more: an empty value, a value after `=` that
/// begins with `-`, and `--` at the end.
pub(crate) fn parsed<'a>(
    alloc: Global,
    names: &[&'a str],
    flags: &[&'a str],
    words: &'a [String],
) -> Result<ArgMatches<'a>, WordsFault>
    requires { IsTrue (can_be_read (names_of names.now) (names_of flags.now)) }
    ensures found { IfOk result (λ matches. (options : List Given)
        × AreOptions (names_of names.now) (names_of flags.now) (map string_bytes words.now) options
        × Match (names_of names.now) (names_of flags.now) options matches) }
    ensures only { (options : List Given)
        → AreOptions (names_of names.now) (names_of flags.now) (map string_bytes words.now) options
        → MatchResult result (Match (names_of names.now) (names_of flags.now) options)
        (λ fault. fault ≡ WordsFault.NoMemory) }
{
    if !are_options(alloc, names, flags, words)? {
        return Err(WordsFault::Usage);
    }
    matched(command_of(alloc, names, flags)?, words)
}

/// Parses words as the positional words of `names`, of which the last ones may be left out.
///
/// `Usage` if there are more words than names, or if a word is empty or begins with `-`. `NoMemory` if memory runs
/// out.
///
/// The words are tested before `clap` parses them, since `clap` takes more: an empty word, `-` and `--`.
pub(crate) fn placed<'a>(
    alloc: Global,
    names: &[&'a str],
    words: &'a [String],
) -> Result<ArgMatches<'a>, WordsFault>
    ensures found { IfOk result (λ matches. ArePlaces (names_of names.now) (map string_bytes words.now)
        × HasMatchesOf (places_app (names_of names.now)) (map string_bytes words.now) matches) }
    ensures only { ArePlaces (names_of names.now) (map string_bytes words.now)
        → takes (places_app (names_of names.now)) (map string_bytes words.now) ≡ true
        → IfErr result (λ fault. fault ≡ WordsFault.NoMemory) }
{
    if words.len() > names.len() || !are_values(words) {
        return Err(WordsFault::Usage);
    }
    matched(places_of(alloc, names)?, words)
}

/// Parses words by `command`.
///
/// `Usage` if `clap` refuses the words. `NoMemory` if memory runs out.
fn matched<'a>(
    command: clap::Command<'a>,
    words: &'a [String],
) -> Result<ArgMatches<'a>, WordsFault>
    ensures found { IfOk result (HasMatchesOf (app_of command.entry) (map string_bytes words.now)) }
    ensures only { takes (app_of command.entry) (map string_bytes words.now) ≡ true
        → IfErr result (λ fault. fault ≡ WordsFault.NoMemory) }
{
    match command.try_get_matches_from(words) {
        Ok(matches) => Ok(matches),
        Err(error) => match error.kind() {
            ErrorKind::OutOfMemory => Err(WordsFault::NoMemory),
            _ => Err(WordsFault::Usage),
        },
    }
}

/// The command with these options and flags.
fn command_of<'a>(
    alloc: Global,
    names: &[&'a str],
    flags: &[&'a str],
) -> Result<clap::Command<'a>, AllocError>
    ensures { IfOk result (λ command. app_of command
        ≡ options_app (names_of names.now) (names_of flags.now)) }
{
    let mut command = clap::Command::new(alloc, "feed_tool")
        .no_binary_name(true)
        .disable_help_flag(true);
    for name in names {
        command = command.arg(option(alloc, name))?;
    }
    for flag in flags {
        command = command.arg(flag_of(alloc, flag))?;
    }
    Ok(command)
}

/// The command with these positional words.
fn places_of<'a>(alloc: Global, names: &[&'a str]) -> Result<clap::Command<'a>, AllocError>
    ensures { IfOk result (λ command. app_of command ≡ places_app (names_of names.now)) }
{
    let mut command = clap::Command::new(alloc, "feed_tool")
        .no_binary_name(true)
        .disable_help_flag(true);
    for name in names {
        command = command.arg(place(alloc, name))?;
    }
    Ok(command)
}

/// The argument that is a positional word.
fn place<'a>(alloc: Global, name: &'a str) -> Arg<'a>
    ensures rule { rule_of result ≡ place_rule name.entry.now }
    ensures local { result.global ≡ false }
{
    Arg::new(alloc, name).action(ArgAction::Set)
}

/// The argument `--name value`.
fn option<'a>(alloc: Global, name: &'a str) -> Arg<'a>
    ensures rule { rule_of result ≡ option_rule name.entry.now }
    ensures local { result.global ≡ false }
{
    Arg::new(alloc, name).long(name).action(ArgAction::Set)
}

/// The argument `--name`.
fn flag_of<'a>(alloc: Global, name: &'a str) -> Arg<'a>
    ensures rule { rule_of result ≡ flag_rule name.entry.now }
    ensures local { result.global ≡ false }
{
    Arg::new(alloc, name).long(name).action(ArgAction::SetTrue)
}

/// The value of the option of this name. `Usage` if it is left out.
pub(crate) fn required<'a>(matches: &ArgMatches<'a>, name: &str) -> Result<&'a str, WordsFault>
    ensures found { IfOk result (λ text. value_in matches.now name.now ≡ Some text.now) }
    ensures missing { OnErr result (value_in matches.now name.now ≡ None) }
{
    matches.get_str(name).ok_or(WordsFault::Usage)
}
