ghost use Rattle.std.specs.Prelude.{◌≡◌, ◌≤◌, ◌+◌, ◌++◌, length};
ghost use Rattle.arrayvec.specs.ArrayVec.{array_vec_len};
ghost use Rattle.command_ends.specs.Fault.{other_base_line};

use arrayvec::ArrayVec;
use chain_links::Base;

/// How many bytes the line may have: `other base`, a base of 200 bytes, the space between and the LF.
const MAX_BASE_LINE: usize = 212;

/// The line of a mirror that has another base. It has a fixed size, so that no memory is needed.
pub type BaseLine = ArrayVec<u8, MAX_BASE_LINE>;

/// The line that is printed for a mirror whose documents have the base `kept`, which isn't that of the words. It ends
/// with LF.
pub fn other_base_line(kept: &Base) -> BaseLine
    ensures { result.items ≡ other_base_line kept.now }
{
    let mut line = ArrayVec::new();
    append(&mut line, b"other base ");
    append(&mut line, kept.text());
    append(&mut line, b"\n");
    line
}

/// Appends bytes for which the line has room.
fn append(line: &mut BaseLine, bytes: &[u8])
    requires { array_vec_len line.old + length bytes.now ≤ MAX_BASE_LINE }
    ensures items { line.new.items ≡ line.old.items ++ bytes.now }
    ensures len { array_vec_len line.new ≡ array_vec_len line.old + length bytes.now }
{
    // The bytes fit, so they are never refused.
    let _ = line.try_extend_from_slice(bytes);
}
