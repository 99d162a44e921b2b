// A text as it is shown.
ghost use Rattle.std.specs.Prelude.{◌≡◌, ◌<◌, ◌++◌, IfOk, OnOk};
ghost use Rattle.std.specs.List.{prefix_len};
ghost use Rattle.apple_text.specs.Reading.{behind_shown, plainly_shown, shows_plain};
ghost use Rattle.apple_text.specs.Shown.{shown_code, shown_text};

use crate::character::push_character;
use crate::plain::is_plain;
use std::alloc::{AllocError, Allocator};

// Puts what a code of seven bits is shown as behind a text.
fn push_shown<A: Allocator>(text: &mut Vec<u8, A>, code: u8) -> Result<(), AllocError>
    requires { code < 128 }
    ensures { OnOk result (text.new.items ≡ text.old.items ++ shown_code code) }
{
    match code {
        0x0d => {
            text.push(b'\n')?;
            Ok(())
        }
        0x09 => {
            text.push(b'\t')?;
            Ok(())
        }
        _ => push_character(text, code),
    }
}

// How many bytes at the front are shown as plain characters.
fn plain_len(bytes: &[u8]) -> usize
    ensures { result ≡ prefix_len shows_plain bytes.now }
{
    bytes
        .iter()
        .take_while(|byte| is_plain(**byte % 128))
        .count()
}

// Puts what the bytes at the front are shown as behind a text, as long as that is plain, and gives the bytes behind
// them.
fn push_plain<'a, A: Allocator>(
    text: &mut Vec<u8, A>,
    bytes: &'a [u8],
) -> Result<&'a [u8], AllocError>
    ensures shown { OnOk result (text.new.items ≡ text.old.items ++ plainly_shown bytes.now) }
    ensures left { IfOk result (λ left. left.now ≡ behind_shown bytes.now) }
{
    let len = plain_len(bytes);
    if len == 0 {
        return Ok(bytes);
    }
    let (front, left) = bytes.split_at(len);
    // Where a block is refused, `extend` would ask again for a smaller one.
    text.reserve(front.len())?;
    text.extend(front.iter().map(|byte| *byte % 128))?;
    Ok(left)
}

/// A text as it is shown: UTF-8, with `\n` at the end of each line.
///
/// # Errors
/// Want of memory alone.
pub fn text_of<A: Allocator>(alloc: A, bytes: &[u8]) -> Result<Vec<u8, A>, AllocError>
    ensures { IfOk result (λ text. text.items ≡ shown_text bytes.now) }
{
    let mut text = Vec::with_capacity(alloc, bytes.len())?;
    let mut rest = bytes;
    while let [byte, more @ ..] = rest {
        push_shown(&mut text, *byte % 128)?;
        rest = push_plain(&mut text, more)?;
    }
    Ok(text)
}
