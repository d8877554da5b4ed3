ghost use Rattle.std.specs.Prelude.{◌≡◌, reverse};
ghost use Rattle.atom_values.specs.Space.{is_space, trimmed, without_leading};

/// Whether the byte is white space: a tab, a line end or a space (XML 1.0, production 3).
pub fn is_space(byte: u8) -> bool
    ensures { result ≡ is_space byte }
{
    matches!(byte, b' ' | b'\t' | b'\n' | b'\r')
}

/// The text without the white space at both ends.
pub fn trimmed(text: &[u8]) -> &[u8]
    ensures { result.now ≡ trimmed text.now }
{
    without_trailing(without_leading(text))
}

/// The text without white space at its beginning.
fn without_leading(text: &[u8]) -> &[u8]
    ensures { result.now ≡ without_leading text.now }
{
    let mut rest = text;
    while let Some((byte, tail)) = rest.split_first() {
        if !is_space(*byte) {
            return rest;
        }
        rest = tail;
    }
    rest
}

/// The text without white space at its end.
fn without_trailing(text: &[u8]) -> &[u8]
    ensures { result.now ≡ reverse (without_leading (reverse text.now)) }
{
    let mut rest = text;
    while let Some((byte, front)) = rest.split_last() {
        if !is_space(*byte) {
            return rest;
        }
        rest = front;
    }
    rest
}
