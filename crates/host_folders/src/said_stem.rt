// The stored name that the name of a folder says, and that of a file before its tail.
ghost use Rattle.std.specs.Prelude.{◌≡◌, ◌≢◌, ◌↔◌, ℕ, List, [], IfOk, IfSome, IfNone, IsTrue, MatchOption};
ghost use Rattle.std.specs.List.{list_all};
ghost use Rattle.std.specs.Char.{is_ascii_digit};
ghost use Rattle.host_folders.specs.HostEntries.{IsNumbering, SaysBytes, SaysFolder, SaysName};
ghost use Rattle.host_folders.specs.Reading.{IsBeforeNumber};

use crate::pieces::first_byte;
use std::alloc::{AllocError, Allocator};
use vol_layout::PlaceForm;

// Whether all of a text are digits.
fn all_digits(text: &[u8]) -> bool
    ensures { result ≡ list_all is_ascii_digit text.now }
{
    text.iter().all(|c| c.is_ascii_digit())
}

// Whether a text is a number.
fn is_number(text: &str) -> bool
    ensures { IsTrue result ↔ (text.now ≢ []) × IsTrue (list_all is_ascii_digit text.now) }
{
    !text.is_empty() && all_digits(text.as_bytes())
}

// What stands before the number.
fn before_number(text: &str) -> Option<&str>
    ensures some { IfSome result (λ front. IsBeforeNumber text.now front.now) }
    ensures none { IfNone result ((front : List ℕ) → ¬ IsBeforeNumber text.now front) }
{
    match text.split_once('~') {
        Some((front, digits)) if is_number(digits) => Some(front),
        Some(_) => None,
        None => Some(text),
    }
}

// The bytes that pieces say.
fn bytes_of<A: Allocator>(
    alloc: A,
    form: PlaceForm,
    text: &[u8],
) -> Result<Option<Vec<u8, A>>, AllocError>
    ensures { IfOk result (λ found. MatchOption found ((bytes : List ℕ) → ¬ SaysBytes form text.now bytes)
        (λ bytes. SaysBytes form text.now bytes.items)) }
{
    let mut bytes = Vec::new(alloc);
    let mut rest = text;
    while let Some((byte, more)) = first_byte(form, rest) {
        bytes.push(byte)?;
        rest = more;
    }
    if rest.is_empty() {
        Ok(Some(bytes))
    } else {
        Ok(None)
    }
}

// The stored name that a stem says.
fn name_of<A: Allocator>(
    alloc: A,
    form: PlaceForm,
    stem: &str,
) -> Result<Option<Vec<u8, A>>, AllocError>
    ensures { IfOk result (λ found. MatchOption found ((name : List ℕ) → ¬ SaysName form stem.now name)
        (λ name. SaysName form stem.now name.items)) }
{
    if stem.is_empty() {
        Ok(None)
    } else if stem == "%" {
        Ok(Some(Vec::new(alloc)))
    } else {
        bytes_of(alloc, form, stem.as_bytes())
    }
}

/// The stored name that the name of a folder says.
pub(crate) fn stored_name<A: Allocator>(
    alloc: A,
    form: PlaceForm,
    text: &str,
) -> Result<Option<Vec<u8, A>>, AllocError>
    ensures { IfOk result (λ found. MatchOption found ((name : List ℕ) → ¬ SaysFolder form text.now name)
        (λ name. SaysFolder form text.now name.items)) }
{
    match before_number(text) {
        Some(stem) => name_of(alloc, form, stem),
        None => Ok(None),
    }
}
