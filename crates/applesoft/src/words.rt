// The words of the tokens.
ghost use Rattle.std.specs.Prelude.{◌≡◌, ◌<◌, ◌≤◌, ◌++◌, IfNone, IfSome, OnOk, [], length, map, slice_index_or};
ghost use Rattle.applesoft.specs.Reading.{begins_with, first_letter, found};
ghost use Rattle.applesoft.specs.Scan.{begins_with_n_or_o, behind_letter, behind_word, first_standing, first_word};
ghost use Rattle.applesoft.specs.Scan.{standing};
ghost use Rattle.applesoft.specs.Words.{word_of};

use crate::codes::without_spaces;
use std::alloc::{AllocError, Allocator};

// The words of $80 to $EA, in order.
static WORDS: [&str; COUNT] = [
    "END", "FOR", "NEXT", "DATA", "INPUT", "DEL", "DIM", "READ", "GR", "TEXT", "PR#", "IN#",
    "CALL", "PLOT", "HLIN", "VLIN", "HGR2", "HGR", "HCOLOR=", "HPLOT", "DRAW", "XDRAW", "HTAB",
    "HOME", "ROT=", "SCALE=", "SHLOAD", "TRACE", "NOTRACE", "NORMAL", "INVERSE", "FLASH", "COLOR=",
    "POP", "VTAB", "HIMEM:", "LOMEM:", "ONERR", "RESUME", "RECALL", "STORE", "SPEED=", "LET",
    "GOTO", "RUN", "IF", "RESTORE", "&", "GOSUB", "RETURN", "REM", "STOP", "ON", "WAIT", "LOAD",
    "SAVE", "DEF", "POKE", "PRINT", "CONT", "LIST", "CLEAR", "GET", "NEW", "TAB(", "TO", "FN",
    "SPC(", "THEN", "AT", "NOT", "STEP", "+", "-", "*", "/", "^", "AND", "OR", ">", "=", "<",
    "SGN", "INT", "ABS", "USR", "FRE", "SCRN(", "PDL", "POS", "SQR", "RND", "LOG", "EXP", "COS",
    "SIN", "TAN", "ATN", "PEEK", "LEN", "STR$", "VAL", "ASC", "CHR$", "LEFT$", "RIGHT$", "MID$",
];

// How many words there are.
const COUNT: usize = 107;

/// The token of REM, less $80.
pub(crate) const REM: u8 = 0x32;

/// The token of DATA, less $80.
pub(crate) const DATA: u8 = 0x03;

/// The token of THEN, less $80.
pub(crate) const THEN: u8 = 0x44;

const AT: u8 = 0x45;

// What stands behind a letter, with the spaces before it passed over.
#[inline]
fn behind_letter(letter: u8, codes: &[u8]) -> Option<&[u8]>
    ensures some { IfSome result (λ rest. behind_letter letter codes.now ≡ Some rest.now) }
    ensures none { IfNone result (behind_letter letter codes.now ≡ None) }
{
    let mut codes = codes;
    while let [b' ', rest @ ..] = codes {
        codes = rest;
    }
    match codes {
        [c, rest @ ..] if c.to_ascii_uppercase() == letter => Some(rest),
        _ => None,
    }
}

// What stands behind a word.
#[inline]
fn behind_word<'a>(word: &[u8], codes: &'a [u8]) -> Option<&'a [u8]>
    ensures some { IfSome result (λ rest. behind_word word.now codes.now ≡ Some rest.now) }
    ensures none { IfNone result (behind_word word.now codes.now ≡ None) }
{
    let mut codes = codes;
    for letter in word {
        codes = behind_letter(*letter, codes)?;
    }
    Some(codes)
}

// Whether the very next character is N or O.
fn begins_with_n_or_o(codes: &[u8]) -> bool
    ensures { result ≡ begins_with_n_or_o codes.now }
{
    match codes {
        [c, ..] => matches!(c.to_ascii_uppercase(), b'N' | b'O'),
        [] => false,
    }
}

// What stands behind the word of a token, where it stands there.
#[inline]
fn standing<'a>(token: u8, word: &[u8], codes: &'a [u8]) -> Option<&'a [u8]>
    ensures some { IfSome result (λ rest.
        standing token (behind_word word.now codes.now) ≡ Some (found token rest.now)) }
    ensures none { IfNone result (standing token (behind_word word.now codes.now) ≡ None) }
{
    let rest = behind_word(word, codes)?;
    if token == AT && begins_with_n_or_o(rest) {
        return None;
    }
    Some(rest)
}

// The letter that characters begin with, as a capital and with the spaces before it passed over; $00 where they have
// none.
fn first_letter(codes: &[u8]) -> u8
    ensures { result ≡ first_letter codes.now }
{
    match without_spaces(codes) {
        [c, ..] => c.to_ascii_uppercase(),
        [] => 0,
    }
}

// Whether a word begins with a letter, or has none.
#[inline]
fn begins_with(word: &[u8], letter: u8) -> bool
    ensures { result ≡ begins_with word.now letter }
{
    match word {
        [first, ..] => letter == *first,
        [] => true,
    }
}

// The same as `standing` of characters that begin with this letter: most words are passed over by their first one.
#[inline]
fn standing_by_letter<'a>(token: u8, word: &[u8], letter: u8, codes: &'a [u8]) -> Option<&'a [u8]>
    requires { letter ≡ first_letter codes.now }
    ensures some { IfSome result (λ rest.
        standing token (behind_word word.now codes.now) ≡ Some (found token rest.now)) }
    ensures none { IfNone result (standing token (behind_word word.now codes.now) ≡ None) }
{
    if !begins_with(word, letter) {
        return None;
    }
    standing(token, word, codes)
}

// The first of some words that stands there, and what stands behind it.
fn first_standing<'a>(words: &[&str], codes: &'a [u8]) -> Option<(u8, &'a [u8])>
    requires { length words.now ≤ COUNT }
    ensures some { IfSome result (λ first.
        first_standing 0 (map (λ w. w.now) words.now) codes.now ≡ Some (found first.0 first.1.now)) }
    ensures none { IfNone result (first_standing 0 (map (λ w. w.now) words.now) codes.now ≡ None) }
{
    let letter = first_letter(codes);
    let mut words = words;
    let mut token = 0;
    while let [word, more @ ..] = words {
        if let Some(rest) = standing_by_letter(token, word.as_bytes(), letter, codes) {
            return Some((token, rest));
        }
        words = more;
        token += 1;
    }
    None
}

/// The first word in the order of the table that stands there, by its token, counted from $80, and what stands behind
/// it.
#[tactic(auto, unfolding(crate::specs::Scan::first_word))]
pub(crate) fn first_word(codes: &[u8]) -> Option<(u8, &[u8])>
    ensures some { IfSome result (λ first. first_word codes.now ≡ Some (found first.0 first.1.now)) }
    ensures none { IfNone result (first_word codes.now ≡ None) }
    ensures small { IfSome result (λ first. first.0 < 107) }
{
    first_standing(&WORDS, codes)
}

// The bytes of one of some words.
fn word_in<'a>(words: &[&'a str], token: u8) -> &'a [u8]
    requires { token < length words.now }
    ensures { result.now ≡ slice_index_or (map (λ w. w.now) words.now) token [] }
{
    words[token as usize].as_bytes()
}

// The bytes of the word of a token, counted from $80.
fn word_of(token: u8) -> &'static [u8]
    requires { token < 107 }
    ensures { result.now ≡ word_of token }
{
    word_in(&WORDS, token)
}

/// Puts the word of a token, counted from $80, behind a text.
pub(crate) fn push_word<A: Allocator>(text: &mut Vec<u8, A>, token: u8) -> Result<(), AllocError>
    requires { token < 107 }
    ensures { OnOk result (text.new.items ≡ text.old.items ++ word_of token) }
{
    text.extend_from_slice(word_of(token))
}
