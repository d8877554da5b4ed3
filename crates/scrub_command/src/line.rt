ghost use Rattle.std.specs.Prelude.{◌≡◌, ◌++◌, decimal, codes, IfOk};
ghost use Rattle.command_ends.specs.Fault.{spaced};

use itoa::Buffer;
use std::alloc::{AllocError, Global};

/// The line of a word and two numbers. `word` ends with its space.
pub fn line_of(alloc: Global, word: &[u8], first: u32, second: u32) -> Result<Vec<u8>, AllocError>
    ensures { IfOk result (λ line. line.items ≡ word.now ++ (decimal first ++ spaced second ++ codes "\n")) }
{
    let mut line = Vec::from_slice(alloc, word)?;
    line.extend_from_slice(Buffer::new().format(first).as_bytes())?;
    line.push(b' ')?;
    line.extend_from_slice(Buffer::new().format(second).as_bytes())?;
    line.push(b'\n')?;
    Ok(line)
}
