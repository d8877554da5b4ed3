ghost use Rattle.std.specs.Prelude.{◌≡◌, ◌≤◌, length, OnOk, OnErr};
ghost use Rattle.feed_disk.specs.Disk.{written};

use atom_values::NoMemory;

/// Writes `from` over the bytes from offset `at` on, and past the end. After `NoMemory` the bytes are as they
/// were.
pub fn overwrite(bytes: &mut Vec<u8>, at: usize, from: &[u8]) -> Result<(), NoMemory>
    requires { at ≤ length bytes.old.items }
    ensures ok { OnOk result (bytes.new.items ≡ written bytes.old.items at from.now) }
    ensures err { OnErr result (bytes.new.items ≡ bytes.old.items) }
{
    let over = from.len().min(bytes.len() - at);
    let (front, back) = from.split_at(over);
    bytes.extend_from_slice(back)?;
    bytes[at..at + over].copy_from_slice(front);
    Ok(())
}
