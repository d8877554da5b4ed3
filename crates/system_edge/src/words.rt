//! The words of the command line.

use atom_values::NoMemory;
use std::alloc::{AllocGlobal, Global};
use std::env;
use std::io::ErrorKind;
use std::rt::Env;

/// Returns the words after the program's name. If one of them, or the program's own name, isn't UTF-8, the list is
/// empty, which names no command.
pub fn given_words<R: Env + AllocGlobal>(rt: &R) -> Result<Vec<String>, NoMemory> {
    let args = match env::args(rt) {
        Ok(args) => args,
        Err(error) if error.kind() == ErrorKind::OutOfMemory => return Err(NoMemory),
        Err(_) => return Ok(Vec::new(rt.alloc())),
    };
    let mut words = Vec::new(rt.alloc());
    for word in args.skip(1) {
        words.push(word)?;
    }
    Ok(words)
}
