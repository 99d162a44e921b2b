// How the body of a line is shown, one item after another.
ghost use Rattle.std.specs.Prelude.{◌≡◌, ◌<◌, ◌+◌, ◌*◌, ◌++◌, IfNone, IfSome, OnOk, None, Some, decimal};
ghost use Rattle.integer_basic.specs.Items.{CanBeShown, characters, end_of_string, first_item, is_letter_or_digit};
ghost use Rattle.integer_basic.specs.Items.{length_of_name, name_item, number_item, string_item, word_item};
ghost use Rattle.integer_basic.specs.Reading.{IsPut, item_text, item_view};
ghost use Rattle.integer_basic.specs.Words.{word_text};

use crate::error::ListError;
use crate::words::word_of;
use apple_text::push_character;
use std::alloc::{AllocError, Allocator};

const STRING: u8 = 0x28;

const STRING_END: u8 = 0x29;

const REMARK: u8 = 0x5d;

// An item of a body.
#[derive(Clone, Copy)]
enum Item<'a> {
    // What stands within a string.
    Quoted(&'a [u8]),
    // What stands behind REM.
    Remark(&'a [u8]),
    Number(u16),
    // Letters and digits.
    Name(&'a [u8]),
    // A word with its spaces.
    Word(&'a [u8]),
}

// Where the first byte stands that ends a string.
fn end_of_string(bytes: &[u8]) -> Option<usize>
    ensures { result ≡ end_of_string bytes.now }
{
    bytes.iter().position(|byte| *byte == STRING_END)
}

// Whether a byte is one of a name.
fn is_letter_or_digit(byte: u8) -> bool
    ensures { result ≡ is_letter_or_digit byte }
{
    matches!(byte, 0xc1..=0xda | 0xb0..=0xb9)
}

// How many letters and digits bytes begin with.
fn length_of_name(bytes: &[u8]) -> usize
    ensures { result ≡ length_of_name bytes.now }
{
    bytes
        .iter()
        .take_while(|byte| is_letter_or_digit(**byte))
        .count()
}

impl<'a> Item<'a> {
    // The string whose first byte stands before these bytes, and what is left.
    fn of_string(bytes: &'a [u8]) -> Option<(Self, &'a [u8])>
        ensures some { IfSome result (λ first.
            string_item (end_of_string bytes.now) bytes.now ≡ Some (item_view first.0 first.1.now)) }
        ensures none { IfNone result (string_item (end_of_string bytes.now) bytes.now ≡ None) }
    {
        match end_of_string(bytes) {
            Some(end) => Some((Item::Quoted(&bytes[..end]), &bytes[end + 1..])),
            None => None,
        }
    }

    // The number that bytes begin with, and what is left.
    fn of_number(bytes: &'a [u8]) -> Option<(Self, &'a [u8])>
        ensures some { IfSome result (λ first. number_item bytes.now ≡ Some (item_view first.0 first.1.now)) }
        ensures none { IfNone result (number_item bytes.now ≡ None) }
    {
        match bytes {
            [low, high, rest @ ..] => {
                let number = u16::from(*low) + 256 * u16::from(*high);
                Some((Item::Number(number), rest))
            }
            _ => None,
        }
    }

    // The name that bytes begin with, and what is left.
    fn of_name(bytes: &'a [u8]) -> (Self, &'a [u8])
        ensures { item_view result.0 result.1.now ≡ name_item bytes.now }
    {
        let (name, rest) = bytes.split_at(length_of_name(bytes));
        (Item::Name(name), rest)
    }

    // The word of a byte, and what is left behind it.
    fn of_word(byte: u8, rest: &'a [u8]) -> Option<(Self, &'a [u8])>
        ensures some { IfSome result (λ first.
            word_item (word_text byte) rest.now ≡ Some (item_view first.0 first.1.now)) }
        ensures none { IfNone result (word_item (word_text byte) rest.now ≡ None) }
    {
        match word_of(byte) {
            Some(word) => Some((Item::Word(word), rest)),
            None => None,
        }
    }

    // The first item of a body, and what is left behind it.
    fn of(body: &'a [u8]) -> Option<(Self, &'a [u8])>
        ensures some { IfSome result (λ first. first_item body.now ≡ Some (item_view first.0 first.1.now)) }
        ensures none { IfNone result (first_item body.now ≡ None) }
    {
        match body {
            [STRING, rest @ ..] => Item::of_string(rest),
            [REMARK, rest @ ..] => Some((Item::Remark(rest), &[])),
            [0xb0..=0xb9, rest @ ..] => Item::of_number(rest),
            [0xc1..=0xda, ..] => Some(Item::of_name(body)),
            [byte, rest @ ..] => Item::of_word(*byte, rest),
            [] => None,
        }
    }
}

// Puts bytes as characters behind a text.
fn push_characters<A: Allocator>(text: &mut Vec<u8, A>, bytes: &[u8]) -> Result<(), AllocError>
    ensures { OnOk result (text.new.items ≡ text.old.items ++ characters bytes.now) }
{
    for byte in bytes {
        push_character(text, *byte % 128)?;
    }
    Ok(())
}

// Puts a number behind a text.
fn push_number<A: Allocator + Copy>(
    alloc: A,
    text: &mut Vec<u8, A>,
    number: u16,
) -> Result<(), AllocError>
    ensures { OnOk result (text.new.items ≡ text.old.items ++ decimal number) }
{
    let told = format!(in alloc; "{number}")?;
    text.extend_from_slice(told.as_bytes())
}

// Puts an item behind a text.
fn push_item<A: Allocator + Copy>(
    alloc: A,
    text: &mut Vec<u8, A>,
    item: Item,
) -> Result<(), AllocError>
    ensures { OnOk result (text.new.items ≡ text.old.items ++ item_text item.entry) }
{
    match item {
        Item::Quoted(inside) => {
            text.push(b'"')?;
            push_characters(text, inside)?;
            text.push(b'"')?;
            Ok(())
        }
        Item::Remark(inside) => {
            text.extend_from_slice(b"REM ")?;
            push_characters(text, inside)
        }
        Item::Number(number) => push_number(alloc, text, number),
        Item::Name(name) => push_characters(text, name),
        Item::Word(word) => text.extend_from_slice(word),
    }
}

/// Puts what a body is shown as behind a text.
///
/// # Errors
/// `Form` where it shows nothing, `Memory` for want of memory.
pub(crate) fn push_body<A: Allocator + Copy>(
    alloc: A,
    text: &mut Vec<u8, A>,
    body: &[u8],
) -> Result<(), ListError>
    ensures put { OnOk result (IsPut text.old.items body.now text.new.items) }
    ensures form { result ≡ Err ListError.Form → ¬ CanBeShown body.now }
{
    let mut rest = body;
    while !rest.is_empty() {
        let Some((item, more)) = Item::of(rest) else {
            return Err(ListError::Form);
        };
        push_item(alloc, text, item)?;
        rest = more;
    }
    Ok(())
}
