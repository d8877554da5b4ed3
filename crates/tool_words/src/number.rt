ghost use Rattle.std.specs.Prelude.{◌≡◌, ◌≤◌, ◌^◌, ℕ, IfSome, min};
ghost use Rattle.std.specs.List.{list_all};
ghost use Rattle.std.specs.Char.{is_ascii_digit};
ghost use Rattle.tool_words.specs.Numbers.{IsNumber, is_number, number_value};

/// Reads a number from `least` to `most`. `None` if the word isn't one.
pub(crate) fn number(word: &[u8], least: u64, most: u64) -> Option<u64>
    ensures found { IfSome result (IsNumber least most word.now) }
    ensures only { (n : ℕ) → IsNumber least most word.now n → result ≡ Some n }
{
    if !is_number(word) {
        return None;
    }
    let value = capped_value(word, u128::from(most) + 1);
    if u128::from(least) <= value && value <= u128::from(most) {
        Some(value as u64)
    } else {
        None
    }
}

/// Whether the word is one or more decimal digits.
fn is_number(word: &[u8]) -> bool
    ensures { result ≡ is_number word.now }
{
    !word.is_empty() && are_digits(word)
}

/// Whether each byte is a decimal digit.
fn are_digits(word: &[u8]) -> bool
    ensures { result ≡ list_all is_ascii_digit word.now }
{
    word.iter().all(|byte| byte.is_ascii_digit())
}

/// The value of the digits, or `cap` if it is greater.
fn capped_value(digits: &[u8], cap: u128) -> u128
    requires { cap ≤ 2 ^ 64 }
    ensures { result ≡ min (number_value digits.now) cap }
{
    let mut value = 0u128;
    for digit in digits {
        value = (value * 10 + u128::from(digit.saturating_sub(b'0'))).min(cap);
    }
    value
}
