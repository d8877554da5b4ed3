ghost use Rattle.std.specs.Prelude.{◌≡◌, ◌⊎◌, ◌≤◌, List, nat_lt, if◌then◌else◌, ℕ, Some, None, IfSome, IsTrue};
ghost use Rattle.std.specs.Char.{digit_value};
ghost use Rattle.atom_values.specs.XmlText.{is_xml_char};
ghost use Rattle.xml_tokens.specs.Characters.{IsReference};
ghost use Rattle.xml_tokens.specs.Reading.{Reads, named_behind, numbered_behind};

use crate::cursor::{Cursor, Lapse};
use atom_values::is_xml_char;

/// The greatest code point.
const LAST_CHAR: u32 = 0x10_FFFF;

/// The value of a digit in base `base`. `None` if the byte isn't a digit of it.
fn digit(byte: u8, base: u32) -> Option<u32>
    requires { (2 ≤ base) × (base ≤ 36) }
    ensures { result ≡ (if nat_lt (digit_value byte) base then Some (digit_value byte) else None) }
{
    char::from(byte).to_digit(base)
}

impl Cursor<'_> {
    /// Reads a reference (XML 1.0, productions 66 and 68), and returns the character that it stands for.
    pub(crate) fn reference(&mut self) -> Result<char, Lapse>
        ensures { Reads (λ c text rest. IsReference c text) self.old.rest.now result self.new.rest.now }
    {
        self.literal(b"&")?;
        if self.at(b"#") {
            self.literal(b"#")?;
            if self.at(b"x") {
                self.literal(b"x")?;
                return self.number(16);
            }
            return self.number(10);
        }
        self.named()
    }

    /// Reads a reference with a name (XML 1.0 section 4.6) after its `&`.
    fn named(&mut self) -> Result<char, Lapse>
        ensures { Reads named_behind self.old.rest.now result self.new.rest.now }
    {
        // The first byte tells the names apart, and two of them by the second one.
        if self.at(b"l") {
            return self.name_of('<', b"lt;");
        }
        if self.at(b"g") {
            return self.name_of('>', b"gt;");
        }
        if self.at(b"q") {
            return self.name_of('"', b"quot;");
        }
        if self.at(b"am") {
            return self.name_of('&', b"amp;");
        }
        self.name_of('\'', b"apos;")
    }

    /// Reads this name, and returns the character that it stands for.
    fn name_of(&mut self, character: char, name: &[u8]) -> Result<char, Lapse>
        ensures { Reads (λ c text rest. (c ≡ character) × (text ≡ name.now))
            self.old.rest.now result self.new.rest.now }
    {
        self.literal(name)?;
        Ok(character)
    }

    /// Reads the digits of a character reference in base `base`, and its `;`. Each number up to [`LAST_CHAR`] is
    /// that of a character, or becomes that of one by more digits. So it is a cut if the text ends after the number.
    fn number(&mut self, base: u32) -> Result<char, Lapse>
        requires { (base ≡ 10) ⊎ (base ≡ 16) }
        ensures { Reads (numbered_behind base) self.old.rest.now result self.new.rest.now }
    {
        let mut value: Option<u32> = None;
        let mut rest = self.rest;
        while let Some((byte, tail)) = rest.split_first() {
            rest = tail;
            self.rest = tail;
            if *byte == b';' {
                return numbered(value).ok_or(Lapse::Broken);
            }
            let digit = digit(*byte, base).ok_or(Lapse::Broken)?;
            let next = value.unwrap_or(0) * base + digit;
            if next > LAST_CHAR {
                return Err(Lapse::Broken);
            }
            value = Some(next);
        }
        Err(Lapse::Cut)
    }
}

/// The XML character with this number. `None` if there is no number, or no such character.
fn numbered(value: Option<u32>) -> Option<char>
    ensures found { IfSome result (λ c. (value ≡ Some c) × IsTrue (is_xml_char c)) }
    ensures only { (c : ℕ) → value ≡ Some c → IsTrue (is_xml_char c) → result ≡ Some c }
{
    let character = char::from_u32(value?)?;
    if is_xml_char(character) {
        Some(character)
    } else {
        None
    }
}
