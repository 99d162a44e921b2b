// Which character of a text can't be taken, by the file that gave it.
ghost use Rattle.std.specs.Prelude.{IsTrue};
ghost use Rattle.shop_host.specs.Runs.{IsLooking};
ghost use Rattle.shop_host.specs.State.{HostState};

use apple_text::first_character;
use disk_container::MOST_BYTES;
use shop_host::{Host, Readable, read_file};
use shown_text::escaped;
use std::alloc::{AllocError, Global};

/// The codes whose pictures are no characters of a text: a newline and a tab stand for them.
const TAB: u8 = 0x09;

const RETURN: u8 = 0x0d;

/// The most bytes of a character in UTF-8.
const MOST_OF_CHARACTER: usize = 4;

/// What some characters are called that editors put into texts.
const NAMES: [(char, &str); 10] = [
    (
        '\u{feff}',
        "the byte order mark, which some programs put before a text: save it as UTF-8 without one",
    ),
    ('\u{a0}', "a space at which no line is broken"),
    ('\u{2018}', "a quotation mark of printers"),
    ('\u{2019}', "a quotation mark or an apostrophe of printers"),
    ('\u{201c}', "a quotation mark of printers"),
    ('\u{201d}', "a quotation mark of printers"),
    ('\u{2013}', "a dash"),
    ('\u{2014}', "a dash"),
    ('\u{2026}', "three full stops in one"),
    ('\r', "a return without a newline behind it"),
];

/// What can't be taken.
#[derive(Clone, Copy)]
enum Culprit {
    Character(char),
    /// A byte that begins no character of UTF-8.
    Byte(u8),
}

// The number of the line that is refused, and the path of its text in a folder, where it is in one.
fn refused_line(told: &[u8]) -> Option<(usize, Option<&str>)> {
    let text = std::str::from_utf8(told).ok()?;
    let (line, _) = text.split_once('\n')?;
    let rest = line.strip_prefix("REFUSED Text ")?;
    match rest.split_once(' ') {
        Some((number, entry)) => Some((number.parse().ok()?, Some(entry))),
        None => Some((rest.parse().ok()?, None)),
    }
}

// The bytes of a text, where it is in a file that can be read again.
fn text_at<H: Host>(host: &mut H, path: &str) -> Option<Vec<u8>>
    ensures looked { IsTrue (H.state host.old).honest → IsLooking (H.state host.old) (H.state host.new) }
{
    read_file(host, path, Readable::File, MOST_BYTES as u32).ok()
}

// The bytes of the text that was refused.
fn refused_text<H: Host>(host: &mut H, given: &str, entry: Option<&str>) -> Option<Vec<u8>>
    ensures looked { IsTrue (H.state host.old).honest → IsLooking (H.state host.old) (H.state host.new) }
{
    let Some(entry) = entry else {
        return text_at(host, given);
    };
    let path = format!(in host.alloc(); "{given}/{entry}").ok()?;
    text_at(host, path.as_str())
}

// The line of a number, from 1, without its end.
fn line_of(text: &[u8], number: usize) -> Option<&[u8]> {
    let before = number.checked_sub(1)?;
    let line = text.split(|byte| *byte == b'\n').nth(before)?;
    Some(line.strip_suffix(b"\r").unwrap_or(line))
}

// The first character of a text that is not empty.
fn first_of(text: &[u8]) -> Option<Culprit> {
    for count in 1..=MOST_OF_CHARACTER.min(text.len()) {
        if let Ok(character) = std::str::from_utf8(&text[..count]) {
            return Some(Culprit::Character(character.chars().next()?));
        }
    }
    Some(Culprit::Byte(*text.first()?))
}

// What is behind the first character of a line, where that can be taken.
fn behind_first(line: &[u8]) -> Option<&[u8]> {
    if let [TAB, rest @ ..] = line {
        return Some(rest);
    }
    match first_character(line)? {
        (TAB | RETURN, _) => None,
        (_, rest) => Some(rest),
    }
}

// The first character of a line that can't be taken.
fn culprit_in(line: &[u8]) -> Option<Culprit> {
    let mut rest = line;
    for _ in 0..line.len() {
        match behind_first(rest) {
            Some(more) => rest = more,
            None => break,
        }
    }
    first_of(rest)
}

// What a character is called, if it has a name here.
fn name_of(character: char) -> Option<&'static str> {
    for (known, name) in NAMES {
        if known == character {
            return Some(name);
        }
    }
    None
}

// What of a line can't be taken, in a whole sentence.
fn sentence(alloc: Global, number: usize, culprit: Culprit) -> Result<String, AllocError> {
    let character = match culprit {
        Culprit::Character(character) => character,
        Culprit::Byte(byte) => {
            return format!(in alloc;
                "Line {number} has the byte ${byte:02X}, which is no UTF-8: save the text as UTF-8."
            );
        }
    };
    let code = character as u32;
    if let Some(name) = name_of(character) {
        return format!(in alloc; "Line {number} has the character U+{code:04X}, {name}.");
    }
    let shown = format!(in alloc; "{character}")?;
    let shown = escaped(alloc, shown.as_str())?;
    format!(in alloc; "Line {number} has the character `{shown}`, U+{code:04X}.")
}

// The number of the line that is refused, and what of it can't be taken.
fn culprit_of<H: Host>(
    host: &mut H,
    given: &Option<String>,
    told: &[u8],
) -> Option<(usize, Culprit)>
    ensures looked { IsTrue (H.state host.old).honest → IsLooking (H.state host.old) (H.state host.new) }
{
    let (number, entry) = refused_line(told)?;
    let text = refused_text(host, given.as_ref()?.as_str(), entry)?;
    let culprit = culprit_in(line_of(text.as_slice(), number)?)?;
    Some((number, culprit))
}

/// Which character of the text that was refused can't be taken, in a whole sentence; `None` where all of the line can,
/// as in a line of a program that is none, or where the text can't be read again.
///
/// # Errors
/// Want of memory.
pub fn text_fault<H: Host>(
    host: &mut H,
    given: &Option<String>,
    told: &[u8],
) -> Result<Option<String>, AllocError>
    ensures looked { IsTrue (H.state host.old).honest → IsLooking (H.state host.old) (H.state host.new) }
{
    match culprit_of(host, given, told) {
        Some((number, culprit)) => Ok(Some(sentence(host.alloc(), number, culprit)?)),
        None => Ok(None),
    }
}
