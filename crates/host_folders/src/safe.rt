// What makes a name safe on every system.
ghost use Rattle.std.specs.Prelude.{◌≡◌, ◌==◌, IfOk, bytes_eq};
ghost use Rattle.std.specs.List.{before_first, list_any, position};
ghost use Rattle.host_folders.specs.HostNames.{escaped_first, folded, is_bad_first, is_bad_last, is_device, no_device};
ghost use Rattle.host_folders.specs.HostNames.{safe_first, safe_last};

use crate::letters::{escape, without_end};
use std::alloc::{AllocError, Allocator};

// What DOS and Windows take for devices, whatever follows behind a period.
static DEVICES: [&str; 24] = [
    "CON", "PRN", "AUX", "NUL", "CONIN$", "CONOUT$", "COM1", "COM2", "COM3", "COM4", "COM5",
    "COM6", "COM7", "COM8", "COM9", "LPT1", "LPT2", "LPT3", "LPT4", "LPT5", "LPT6", "LPT7", "LPT8",
    "LPT9",
];

// Where the first period stands.
fn first_period(text: &[u8]) -> Option<usize>
    ensures { result ≡ position (λ c. c == 46) text.now }
{
    text.iter().position(|c| *c == b'.')
}

// What stands before the first period.
fn before_period(text: &[u8]) -> &[u8]
    ensures { result.now ≡ before_first (λ c. c == 46) text.now }
{
    match first_period(text) {
        Some(end) => &text[..end],
        None => text,
    }
}

// Whether texts are one without regard to case.
fn are_alike(text: &[u8], other: &str) -> bool
    ensures { result ≡ bytes_eq (folded text.now) (folded other.now) }
{
    text.eq_ignore_ascii_case(other.as_bytes())
}

// Whether one of some texts is this one without regard to case.
fn one_is_alike(text: &[u8], others: &[&str]) -> bool
    ensures { result ≡ list_any (λ other. bytes_eq (folded text.now) (folded other.now)) others.now }
{
    others.iter().any(|other| are_alike(text, other))
}

// Whether a name is that of a device.
#[tactic(auto, unfolding(crate::specs::HostNames::is_device))]
fn is_device(text: &[u8]) -> bool
    ensures { result ≡ is_device text.now }
{
    let base = without_end(before_period(text), b' ');
    one_is_alike(base, &DEVICES)
}

// A text with its first character escaped.
fn escaped_first<A: Allocator>(alloc: A, text: &[u8]) -> Result<Vec<u8, A>, AllocError>
    ensures { IfOk result (λ escaped. escaped.items ≡ escaped_first text.now) }
{
    let mut escaped = Vec::new(alloc);
    if let [first, rest @ ..] = text {
        escaped.extend_from_slice(&escape(*first))?;
        escaped.extend_from_slice(rest)?;
    }
    Ok(escaped)
}

// Whether no name begins with a character.
fn is_bad_first(c: u8) -> bool
    ensures { result ≡ is_bad_first c }
{
    matches!(c, b'.' | b'-' | b' ')
}

// Whether no name ends with a character.
fn is_bad_last(c: u8) -> bool
    ensures { result ≡ is_bad_last c }
{
    matches!(c, b'.' | b' ')
}

/// A text that begins with no period, hyphen or space.
pub(crate) fn safe_first<A: Allocator>(alloc: A, text: Vec<u8, A>) -> Result<Vec<u8, A>, AllocError>
    ensures { IfOk result (λ safe. safe.items ≡ safe_first text.items) }
{
    match text.first() {
        Some(first) if is_bad_first(*first) => escaped_first(alloc, text.as_slice()),
        _ => Ok(text),
    }
}

/// A text that ends with no period or space.
#[tactic(auto, using(crate::proofs::Last::safe_last_push))]
pub(crate) fn safe_last<A: Allocator>(mut text: Vec<u8, A>) -> Result<Vec<u8, A>, AllocError>
    ensures { IfOk result (λ safe. safe.items ≡ safe_last text.items) }
{
    if let Some(last) = text.pop() {
        if is_bad_last(last) {
            text.extend_from_slice(&escape(last))?;
        } else {
            text.push(last)?;
        }
    }
    Ok(text)
}

/// A text that names no device.
pub(crate) fn no_device<A: Allocator>(alloc: A, text: Vec<u8, A>) -> Result<Vec<u8, A>, AllocError>
    ensures { IfOk result (λ safe. safe.items ≡ no_device text.items) }
{
    if is_device(text.as_slice()) {
        escaped_first(alloc, text.as_slice())
    } else {
        Ok(text)
    }
}
