// How the characters of a line are read, one item after another.
ghost use Rattle.std.specs.Prelude.{◌≡◌, ◌<◌, ◌≤◌, List, [], ◌∷◌, ◌++◌, false, true, IfNone, IfOk, IfSome, OnOk};
ghost use Rattle.std.specs.Prelude.{drop, length, take};
ghost use Rattle.applesoft.specs.Reading.{item_view};
ghost use Rattle.applesoft.specs.Scan.{CanBeScanned, IsScanned, data_length, first_item, first_word, string_length};
ghost use Rattle.applesoft.specs.Scan.{token_item, without_space, word_item};

use crate::words::{DATA, REM, THEN, first_word};
use std::alloc::{AllocError, Allocator};

const PRINT: u8 = 0xba;

// A byte, characters that stand behind it, what is left, and whether a statement may begin there.
#[derive(Clone, Copy)]
struct Item<'a> {
    first: Option<u8>,
    characters: &'a [u8],
    rest: &'a [u8],
    begins: bool,
}

// How much belongs to a string behind its first quotation mark.
fn string_length(codes: &[u8]) -> usize
    ensures value { result ≡ string_length codes.now }
    ensures within { result ≤ length codes.now }
{
    for (index, c) in codes.iter().enumerate() {
        if *c == b'"' {
            return index + 1;
        }
    }
    codes.len()
}

// How much belongs to a DATA.
fn data_length(codes: &[u8]) -> usize
    ensures value { result ≡ data_length false codes.now }
    ensures within { result ≤ length codes.now }
{
    let mut quoted = false;
    for (index, c) in codes.iter().enumerate() {
        if *c == b':' && !quoted {
            return index;
        }
        if *c == b'"' {
            quoted = !quoted;
        }
    }
    codes.len()
}

// Characters without the space that they may begin with.
fn without_space(codes: &[u8]) -> &[u8]
    ensures { result.now ≡ without_space codes.now }
{
    match codes {
        [b' ', rest @ ..] => rest,
        _ => codes,
    }
}

impl<'a> Item<'a> {
    // One byte.
    fn of_byte(byte: u8, rest: &'a [u8], begins: bool) -> Self
        ensures { item_view result ≡ record { bytes = byte ∷ []; rest = rest.now; begins = begins } }
    {
        Item {
            first: Some(byte),
            characters: &[],
            rest,
            begins,
        }
    }

    // A byte, and the characters up to this place.
    fn up_to(byte: u8, codes: &'a [u8], end: usize) -> Self
        requires { end ≤ length codes.now }
        ensures { item_view result
            ≡ record { bytes = byte ∷ take end codes.now; rest = drop end codes.now; begins = false } }
    {
        let (characters, rest) = codes.split_at(end);
        Item {
            first: Some(byte),
            characters,
            rest,
            begins: false,
        }
    }

    // The word that stands there, or else the first character.
    fn of_word(codes: &'a [u8], c: u8, rest: &'a [u8]) -> Self
        ensures { item_view result ≡ word_item (first_word codes.now) c rest.now }
    {
        match first_word(codes) {
            Some((token, behind)) => Item::of_token(token, behind),
            None => Item::of_byte(c.to_ascii_uppercase(), rest, false),
        }
    }

    // What a token, counted from $80, takes.
    fn of_token(token: u8, rest: &'a [u8]) -> Self
        requires { token < 107 }
        ensures { item_view result ≡ token_item token rest.now }
    {
        let codes = without_space(rest);
        match token {
            REM => Item::up_to(0x80 + REM, codes, codes.len()),
            DATA => Item::up_to(0x80 + DATA, codes, data_length(codes)),
            _ => Item::of_byte(0x80 + token, rest, token == THEN),
        }
    }

    // The first item of some characters.
    fn of(begins: bool, codes: &'a [u8]) -> Option<Self>
        ensures some { IfSome result (λ item. first_item begins codes.now ≡ Some (item_view item)) }
        ensures none { IfNone result (first_item begins codes.now ≡ None) }
    {
        let (first, rest) = codes.split_first()?;
        let c = *first;
        match c {
            b' ' => Some(Item {
                first: None,
                characters: &[],
                rest,
                begins,
            }),
            b'"' => Some(Item::up_to(c, rest, string_length(rest))),
            b'?' if begins => Some(Item::of_byte(PRINT, rest, false)),
            b'?' => None,
            b'0'..=b'9' | b':' | b';' => Some(Item::of_byte(c, rest, c == b':')),
            _ => Some(Item::of_word(codes, c, rest)),
        }
    }
}

// Puts the bytes of an item behind others.
fn push_item<A: Allocator>(bytes: &mut Vec<u8, A>, item: Item) -> Result<(), AllocError>
    ensures { OnOk result (bytes.new.items ≡ bytes.old.items ++ (item_view item.entry).bytes) }
{
    if let Some(first) = item.first {
        bytes.push(first)?;
    }
    bytes.extend_from_slice(item.characters)
}

/// The bytes that the characters of a line are read as, or `None` where a `?` stands where no statement may begin.
pub(crate) fn scan<A: Allocator>(alloc: A, codes: &[u8]) -> Result<Option<Vec<u8, A>>, AllocError>
    ensures some { IfOk result (λ read. IfSome read (λ bytes. IsScanned true codes.now bytes.items)) }
    ensures none { IfOk result (λ read. IfNone read (¬ CanBeScanned true codes.now)) }
{
    let mut bytes = Vec::new(alloc);
    let mut rest = codes;
    let mut begins = true;
    while !rest.is_empty() {
        let Some(item) = Item::of(begins, rest) else {
            return Ok(None);
        };
        push_item(&mut bytes, item)?;
        rest = item.rest;
        begins = item.begins;
    }
    Ok(Some(bytes))
}
