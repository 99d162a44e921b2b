// The pieces of a stem, each of which says a byte of the stored name.
ghost use Rattle.std.specs.Prelude.{◌≡◌, ◌<◌, ℕ, List, IfSome, IfNone, IsTrue};
ghost use Rattle.std.specs.Option.{SomeIff};
ghost use Rattle.host_folders.specs.HostNames.{character_byte, escape_byte, is_plain};
ghost use Rattle.host_folders.specs.HostEntries.{is_escape};
ghost use Rattle.host_folders.specs.Reading.{BeginsWith, BeginsWithCharacter, BeginsWithEscape, BeginsWithEscaped};
ghost use Rattle.host_folders.specs.Reading.{BeginsWithMarked};

use crate::digits::first_number;
use vol_layout::PlaceForm;

// Whether a character stands for itself.
fn is_plain(c: u8) -> bool
    ensures { result ≡ is_plain c }
{
    matches!(c, 0x20..=0x7e)
        && !matches!(
            c,
            b'"' | b'%' | b'*' | b'/' | b':' | b'<' | b'>' | b'?' | b'\\' | b'|' | b'~'
        )
}

// The character that a text begins with, and the text behind it.
fn first_character(text: &[u8]) -> Option<(u8, &[u8])>
    ensures some { IfSome result (λ first. BeginsWithCharacter text.now first.0 first.1.now) }
    ensures none { IfNone result ((c : ℕ) (rest : List ℕ) → ¬ BeginsWithCharacter text.now c rest) }
{
    match text {
        [b'%', b'%', rest @ ..] => Some((b'%', rest)),
        [c, rest @ ..] if is_plain(*c) => Some((*c, rest)),
        _ => None,
    }
}

// The number of the escape that a text begins with, and the text behind it.
fn first_escape(text: &[u8]) -> Option<(u8, &[u8])>
    ensures some { IfSome result (λ first. BeginsWithEscape text.now first.0 first.1.now) }
    ensures none { IfNone result ((n : ℕ) (rest : List ℕ) → ¬ BeginsWithEscape text.now n rest) }
{
    match text {
        [b'%', behind @ ..] => first_number(behind),
        _ => None,
    }
}

// The byte of a character.
fn character_byte(form: PlaceForm, c: u8) -> u8
    requires { c < 128 }
    ensures { result ≡ character_byte form c }
{
    match form {
        PlaceForm::Sector => 0x80 + c,
        PlaceForm::Block => c,
    }
}

// The byte of an escape that stands alone.
fn escape_byte(form: PlaceForm, n: u8) -> Option<u8>
    ensures { SomeIff result (IsTrue (is_escape form n)) (escape_byte form n) }
{
    match (form, n) {
        (PlaceForm::Sector, 0x20..=0x7e) => Some(0x80 + n),
        (PlaceForm::Sector, 0x7f | 0xa0..=0xfe) => None,
        _ => Some(n),
    }
}

// The byte of the escape behind `%7f`, and the text behind it.
fn first_marked(text: &[u8]) -> Option<(u8, &[u8])>
    ensures some { IfSome result (λ first. BeginsWithMarked text.now first.0 first.1.now) }
    ensures none { IfNone result ((byte : ℕ) (rest : List ℕ) → ¬ BeginsWithMarked text.now byte rest) }
{
    let (byte, rest) = first_escape(text)?;
    if byte < 0x20 || byte > 0x7f {
        return None;
    }
    Some((byte, rest))
}

// The byte of the escapes that a text begins with, and the text behind them.
fn first_escaped(form: PlaceForm, text: &[u8]) -> Option<(u8, &[u8])>
    ensures some { IfSome result (λ first. BeginsWithEscaped form text.now first.0 first.1.now) }
    ensures none { IfNone result ((byte : ℕ) (rest : List ℕ) → ¬ BeginsWithEscaped form text.now byte rest) }
{
    let (n, rest) = first_escape(text)?;
    match form {
        PlaceForm::Sector if n == 0x7f => first_marked(rest),
        _ => Some((escape_byte(form, n)?, rest)),
    }
}

/// The byte that the piece says that a text begins with, and the text behind it.
pub(crate) fn first_byte(form: PlaceForm, text: &[u8]) -> Option<(u8, &[u8])>
    ensures some { IfSome result (λ first. BeginsWith form text.now first.0 first.1.now) }
    ensures none { IfNone result ((byte : ℕ) (rest : List ℕ) → ¬ BeginsWith form text.now byte rest) }
{
    match first_character(text) {
        Some((c, rest)) => Some((character_byte(form, c), rest)),
        None => first_escaped(form, text),
    }
}
