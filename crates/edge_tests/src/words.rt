//! The words that the system gives, from a list in memory.

ghost use Rattle.std.specs.Prelude.{◌≤◌};

use std::env::FillError;
use std::rt::Env;
use system_edge::given_words;

/// Words in memory, the program's own path first.
#[derive(Drop)]
struct ListedWords {
    words: &'static [&'static [u8]],
}

impl Env for ListedWords {
    fn arg(&self, at: usize, into: &mut [u8]) -> Result<usize, FillError> {
        let Some(word) = self.words.get(at) else {
            return Err(FillError::NotPresent);
        };
        match into.get_mut(..word.len()) {
            Some(front) => front.copy_from_slice(word),
            None => return Err(FillError::TooLong),
        }
        Ok(word.len())
    }

    fn var(&self, _name: &str, _into: &mut [u8]) -> Result<usize, FillError> {
        Err(FillError::NotPresent)
    }

    fn var_at(&self, _at: usize, _into: &mut [u8]) -> Result<usize, FillError> {
        Err(FillError::NotPresent)
    }
}

/// The words of the system, the program's own path first, and those that the program gets.
static CASES: [(&[&[u8]], &[&str]); 5] = [
    (&[b"feed_tool", b"apply", b"4"], &["apply", "4"]),
    (&[b"feed_tool"], &[]),
    (&[b"feed_tool", b"\xff"], &[]),
    (&[b"feed_tool", b"apply", b"4", b"\xff"], &[]),
    (&[b"\xfffeed_tool", b"apply", b"4"], &[]),
];

fn spells(words: &[String], wanted: &[&str]) -> bool {
    words.len() == wanted.len()
        && words
            .iter()
            .zip(wanted)
            .all(|(word, text)| word.as_str() == *text)
}

#[test]
fn takes_words_of_utf8_alone(rt: HostRuntime) {
    let alloc = rt.alloc();
    for &(given, wanted) in &CASES {
        let words = given_words(&(ListedWords { words: given }, alloc)).expect(&rt, "memory");
        assert!(rt; spells(words.as_slice(), wanted), "{wanted:?}");
    }
}
