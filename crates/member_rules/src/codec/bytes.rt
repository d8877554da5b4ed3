ghost use Rattle.std.specs.Prelude.{◌<◌, ◌^◌, length, OnOk, OnErr};
ghost use Rattle.member_rules.specs.Coding.{number_field, size_field, text_field};

use atom_values::NoMemory;
use atom_writer::Out;

/// Adds a number in 4 bytes, most significant byte first.
pub(crate) fn push_number<W: Out>(out: &mut W, number: u32) -> Result<(), NoMemory>
    ensures added { OnOk result (W.adds out.old out.new (number_field number)) }
    ensures failed { OnErr result W.can_fail }
    ensures rules { OnOk result (number < 2 ^ 32) }
{
    out.push(&number.to_be_bytes())?;
    Ok(())
}

/// Adds a number in 8 bytes, most significant byte first.
pub(crate) fn push_size<W: Out>(out: &mut W, size: u64) -> Result<(), NoMemory>
    ensures added { OnOk result (W.adds out.old out.new (size_field size)) }
    ensures failed { OnErr result W.can_fail }
    ensures rules { OnOk result (size < 2 ^ 64) }
{
    out.push(&size.to_be_bytes())?;
    Ok(())
}

/// Adds the number of bytes and the bytes.
pub(crate) fn push_bytes<W: Out>(out: &mut W, bytes: &[u8]) -> Result<(), NoMemory>
    requires { length bytes.now < 2 ^ 32 }
    ensures added { OnOk result (W.adds out.old out.new (text_field bytes.now)) }
    ensures failed { OnErr result W.can_fail }
{
    push_number(out, bytes.len() as u32)?;
    out.push(bytes)?;
    Ok(())
}
