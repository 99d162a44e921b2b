// The characters of a line, as codes of seven bits.
ghost use Rattle.std.specs.Prelude.{◌≡◌, ◌≢◌, ◌<◌, ℕ, List, [], ◌∷◌, ◌++◌, All, IfNone, IfSome, IfOk, length};
ghost use Rattle.std.specs.Str.Lines.{lines, strip_carriage_return};
ghost use Rattle.apple_text.specs.Shown.{character};
ghost use Rattle.applesoft.specs.Reading.{IsFirstCode, IsNewlineAt, IsNoFirstCode};
ghost use Rattle.applesoft.specs.Tokens.{Shows, without_spaces};

use apple_text::first_character;
use std::alloc::{AllocError, Allocator};

// A line without the carriage return at its end.
fn without_return(line: &[u8]) -> &[u8]
    ensures { result.now ≡ strip_carriage_return line.now }
{
    match line {
        [front @ .., b'\r'] => front,
        _ => line,
    }
}

// Where the first newline of a text stands.
fn newline_at(text: &[u8]) -> Option<usize>
    ensures some { IfSome result (IsNewlineAt text.now) }
    ensures none { IfNone result (All (λ c. c ≢ 10) text.now) }
{
    for (index, c) in text.iter().enumerate() {
        if *c == b'\n' {
            return Some(index);
        }
    }
    None
}

/// The first line of a text, and the text behind it.
pub(crate) fn first_line(text: &[u8]) -> Option<(&[u8], &[u8])>
    ensures some { IfSome result (λ first. lines text.now ≡ first.0.now ∷ lines first.1.now) }
    ensures shorter { IfSome result (λ first. length first.1.now < length text.now) }
    ensures none { IfNone result (lines text.now ≡ []) }
{
    if text.is_empty() {
        return None;
    }
    match newline_at(text) {
        Some(end) => Some((without_return(&text[..end]), &text[end + 1..])),
        None => Some((text, &[])),
    }
}

/// A text without the spaces that it begins with.
pub(crate) fn without_spaces(text: &[u8]) -> &[u8]
    ensures { result.now ≡ without_spaces text.now }
{
    let mut text = text;
    while let [b' ', rest @ ..] = text {
        text = rest;
    }
    text
}

// The code, not $00, whose character a text begins with, and the text behind that character.
fn first_code(text: &[u8]) -> Option<(u8, &[u8])>
    ensures some { IfSome result (λ first. IsFirstCode text.now first.0 first.1.now) }
    ensures none { IfNone result (IsNoFirstCode text.now) }
{
    let (code, rest) = first_character(text)?;
    if code == 0 {
        return None;
    }
    Some((code, rest))
}

/// The codes that a text shows, none of them $00, or `None` where it shows none.
pub(crate) fn codes_of<A: Allocator>(
    alloc: A,
    text: &[u8],
) -> Result<Option<Vec<u8, A>>, AllocError>
    ensures some { IfOk result (λ codes. IfSome codes (λ some. Shows text.now some.items)) }
    ensures none { IfOk result (λ codes. IfNone codes ((some : List ℕ) → ¬ Shows text.now some)) }
{
    let mut codes = Vec::new(alloc);
    let mut rest = text;
    while let Some((code, more)) = first_code(rest) {
        codes.push(code)?;
        rest = more;
    }
    if rest.is_empty() {
        Ok(Some(codes))
    } else {
        Ok(None)
    }
}
