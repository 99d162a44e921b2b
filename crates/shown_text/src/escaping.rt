// The words of a user as they are shown.
ghost use Rattle.std.specs.Prelude.{◌≡◌, ◌<◌, ◌++◌, ◌/◌, ◌%◌, IfOk, OnOk, map, string_bytes};
ghost use Rattle.shown_text.specs.Escaping.{
  escaped,
  hex_digit,
  hex_pair,
  is_control,
  is_format,
  is_high_format,
  is_low_format,
  is_middle_format,
  shown_character,
  shown_control,
  shown_format,
};

use std::alloc::{AllocError, Global};

// A hexadecimal digit.
fn hex_digit(n: u8) -> char
    requires { n < 16 }
    ensures { result ≡ hex_digit n }
{
    match n {
        0..=9 => char::from(b'0' + n),
        _ => char::from(b'A' + n - 10),
    }
}

// Whether a terminal may obey a character in place of showing it.
fn is_control(character: char) -> bool
    ensures { result ≡ is_control character }
{
    matches!(character as u32, 0..=0x1f | 0x7f..=0x9f)
}

// Whether a character is a format character up to U+08E2 or U+180E.
fn is_low_format(character: char) -> bool
    ensures { result ≡ is_low_format character }
{
    matches!(
        character as u32,
        0xad | 0x600..=0x605 | 0x61c | 0x6dd | 0x70f | 0x890..=0x891 | 0x8e2 | 0x180e
    )
}

// Whether a character is a format character from U+200B to U+FFFB, or separates lines or paragraphs.
fn is_middle_format(character: char) -> bool
    ensures { result ≡ is_middle_format character }
{
    matches!(
        character as u32,
        0x200b..=0x200f | 0x2028..=0x202e | 0x2060..=0x206f | 0xfeff | 0xfff9..=0xfffb
    )
}

// Whether a character is a format character past U+FFFF.
fn is_high_format(character: char) -> bool
    ensures { result ≡ is_high_format character }
{
    matches!(
        character as u32,
        0x110bd
            | 0x110cd
            | 0x13430..=0x1343f
            | 0x1bca0..=0x1bca3
            | 0x1d173..=0x1d17a
            | 0xe0001
            | 0xe0020..=0xe007f
    )
}

// Whether a character shows nothing and may turn or part what stands beside it.
fn is_format(character: char) -> bool
    ensures { result ≡ is_format character }
{
    is_low_format(character) || is_middle_format(character) || is_high_format(character)
}

// Adds the two hexadecimal digits of a byte to a text.
fn push_pair(text: &mut String, byte: u8) -> Result<(), AllocError>
    ensures { OnOk result (string_bytes text.new ≡ string_bytes text.old ++ hex_pair byte) }
{
    text.push(hex_digit(byte / 16))?;
    text.push(hex_digit(byte % 16))
}

// Adds a control character to a text, as `\x` and two hexadecimal digits.
fn push_control(text: &mut String, character: char) -> Result<(), AllocError>
    requires { character < 256 }
    ensures { OnOk result (string_bytes text.new ≡ string_bytes text.old ++ shown_control character) }
{
    text.push_str("\\x")?;
    push_pair(text, character as u32 as u8)
}

// Adds the six hexadecimal digits of a character's number to a text.
fn push_number(text: &mut String, character: char) -> Result<(), AllocError>
    ensures { OnOk result (string_bytes text.new ≡ string_bytes text.old ++ hex_pair (character / 65536)
        ++ hex_pair (character / 256 % 256) ++ hex_pair (character % 256)) }
{
    let code = character as u32;
    push_pair(text, (code / 0x1_0000) as u8)?;
    push_pair(text, (code / 0x100 % 0x100) as u8)?;
    push_pair(text, (code % 0x100) as u8)
}

// Adds a format character to a text, as `\u` and six hexadecimal digits in braces.
fn push_format(text: &mut String, character: char) -> Result<(), AllocError>
    ensures { OnOk result (string_bytes text.new ≡ string_bytes text.old ++ shown_format character) }
{
    text.push_str("\\u{")?;
    push_number(text, character)?;
    text.push('}')
}

// Adds a character to a text as it is shown.
fn push_shown(text: &mut String, character: char) -> Result<(), AllocError>
    ensures { OnOk result (string_bytes text.new ≡ string_bytes text.old ++ shown_character character) }
{
    if is_control(character) {
        push_control(text, character)
    } else if is_format(character) {
        push_format(text, character)
    } else {
        text.push(character)
    }
}

/// A word with its control and format characters escaped, so that a terminal shows them and does not obey them.
///
/// # Errors
/// Want of memory alone.
pub fn escaped(alloc: Global, word: &str) -> Result<String, AllocError>
    ensures { IfOk result (λ shown. string_bytes shown ≡ escaped word.now) }
{
    let mut shown = String::new(alloc);
    for character in word.chars() {
        push_shown(&mut shown, character)?;
    }
    Ok(shown)
}

/// The words, each of them escaped.
///
/// # Errors
/// Want of memory alone.
pub fn all_escaped(alloc: Global, words: &[String]) -> Result<Vec<String>, AllocError>
    ensures { IfOk result (λ shown. map string_bytes shown.items ≡ map escaped (map string_bytes words.now)) }
{
    let mut shown = Vec::new(alloc);
    for word in words {
        shown.push(escaped(alloc, word.as_str())?)?;
    }
    Ok(shown)
}
