ghost use Rattle.std.specs.Prelude.{◌≡◌};
ghost use Rattle.xml_tokens.specs.Keys.{key_of, number_of};

/// A name behind a number that is made of it. A comparison of two keys seldom reads the names.
pub(crate) type Key<'a> = (u64, &'a [u8]);

/// The factor of the number: 2^64 divided by the golden ratio, whose multiples are spread evenly.
const FACTOR: u64 = 0x9E37_79B9_7F4A_7C15;

/// The key of a name.
pub(crate) fn key(name: &[u8]) -> Key<'_>
    ensures { result ≡ key_of name.entry }
{
    (number(name), name)
}

/// A number that depends on each byte of the name.
fn number(name: &[u8]) -> u64
    ensures { result ≡ number_of name.now }
{
    let mut number: u64 = 0;
    for byte in name {
        number = number.wrapping_mul(FACTOR).wrapping_add(u64::from(*byte));
    }
    number
}
