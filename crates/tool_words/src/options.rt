ghost use Rattle.std.specs.Prelude.{◌≡◌, ◌≢◌, ◌↔◌, ℕ, List, ◌∷◌, ◌++◌, Option, None, Some, All, Any, IsTrue, IfOk, IfSome, IsSomeAnd, MatchOption, codes, map, string_bytes};
ghost use Rattle.std.specs.List.{list_all};
ghost use Rattle.std.specs.Option.{option_copied};
ghost use Rattle.tool_words.specs.Options.{Given as GivenOption, IsKnown, spelled, is_value};
ghost use Rattle.tool_words.specs.Reading.{BeginsWith, IsOfForm, MayFollow, SpellOptions, apart, can_be_read, names_of, option_of};

use std::alloc::{AllocError, Global};

/// An option with its value, or a flag, which has no value.
#[derive(Clone, Copy, Debug)]
pub(crate) struct Given<'a> {
    pub(crate) name: &'a str,
    pub(crate) value: Option<&'a str>,
}

/// Whether the words are options of `names` and flags of `flags`, in any order, each at most once.
pub(crate) fn are_options(
    alloc: Global,
    names: &[&str],
    flags: &[&str],
    words: &[String],
) -> Result<bool, AllocError>
    // No name has a `=`, where a word is cut, and no option has the name of a flag.
    requires { IsTrue (can_be_read (names_of names.now) (names_of flags.now)) }
    ensures sound { IfOk result (λ yes. IsTrue yes
        → SpellOptions (names_of names.now) (names_of flags.now) (map string_bytes words.now)) }
    ensures complete { SpellOptions (names_of names.now) (names_of flags.now) (map string_bytes words.now)
        → IfOk result IsTrue }
{
    let mut seen = Vec::new(alloc);
    let mut rest = words;
    while let Some((given, left)) = first_option(flags, rest) {
        if !may_follow(names, flags, seen.as_slice(), given) {
            return Ok(false);
        }
        seen.push(given.name)?;
        rest = left;
    }
    Ok(rest.is_empty())
}

/// Reads the first option or flag, and returns it with the words after it. `None` if the words begin with
/// neither.
fn first_option<'a>(flags: &[&str], words: &'a [String]) -> Option<(Given<'a>, &'a [String])>
    ensures found { IfSome result (λ x. BeginsWith (map string_bytes words.now) (option_of x.0)
        (map string_bytes x.1.now)) }
    ensures only { (given : GivenOption) (rest : List (List ℕ)) → All (λ c. c ≢ 61) given.name
        → IsOfForm (names_of flags.now) given → map string_bytes words.now ≡ spelled given ++ rest
        → IsSomeAnd result (λ x. (option_of x.0 ≡ apart given) × (map string_bytes x.1.now ≡ rest)) }
{
    let (word, behind) = words.split_first()?;
    let (name, joined) = name_of(word.as_str())?;
    if joined.is_some() || is_one_of(flags, name) {
        return Some((
            Given {
                name,
                value: joined,
            },
            behind,
        ));
    }
    let (value, left) = behind.split_first()?;
    let given = Given {
        name,
        value: Some(value.as_str()),
    };
    Some((given, left))
}

/// The name after `--`, and the value after `=` if there is one. `None` if the word doesn't begin with `--`.
fn name_of(word: &str) -> Option<(&str, Option<&str>)>
    ensures found { IfSome result (λ x. MatchOption x.1 (word.now ≡ codes "--" ++ x.0.now)
        (λ value. word.now ≡ codes "--" ++ x.0.now ++ codes "=" ++ value.now)) }
    ensures joined { (name value : List ℕ) → All (λ c. c ≢ 61) name
        → word.now ≡ codes "--" ++ name ++ codes "=" ++ value
        → IsSomeAnd result (λ x. (x.0.now ≡ name) × (option_copied x.1 ≡ Some value)) }
    ensures apart { (name : List ℕ) → All (λ c. c ≢ 61) name → word.now ≡ codes "--" ++ name
        → IsSomeAnd result (λ x. (x.0.now ≡ name) × (option_copied x.1 ≡ None)) }
{
    let option = word.strip_prefix("--")?;
    match option.split_once('=') {
        Some((name, value)) => Some((name, Some(value))),
        None => Some((option, None)),
    }
}

/// Whether `given` is known and its name isn't in `seen`.
fn may_follow(names: &[&str], flags: &[&str], seen: &[&str], given: Given<'_>) -> bool
    ensures { IsTrue result ↔ MayFollow (names_of names.now) (names_of flags.now) (names_of seen.now)
        (option_of given.entry) }
{
    is_known(names, flags, given) && !is_one_of(seen, given.name)
}

/// Whether `given` is an option of `names` with a value, or a flag of `flags`.
fn is_known(names: &[&str], flags: &[&str], given: Given<'_>) -> bool
    ensures { IsTrue result ↔ IsKnown (names_of names.now) (names_of flags.now) (option_of given.entry) }
{
    match given.value {
        Some(value) => is_value(value) && is_one_of(names, given.name),
        None => is_one_of(flags, given.name),
    }
}

/// Whether the word may be a value: it isn't empty and doesn't begin with `-`.
fn is_value(word: &str) -> bool
    ensures { result ≡ is_value word.now }
{
    !word.is_empty() && !word.starts_with('-')
}

/// Whether each of the words may be a value.
pub(crate) fn are_values(words: &[String]) -> bool
    ensures { result ≡ list_all (λ word. is_value (string_bytes word)) words.now }
{
    words.iter().all(|word| is_value(word.as_str()))
}

/// Whether `name` is in `names`.
fn is_one_of(names: &[&str], name: &str) -> bool
    ensures { IsTrue result ↔ Any (λ known. known ≡ name.now) (names_of names.now) }
{
    names.contains(&name)
}
