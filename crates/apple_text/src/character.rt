// The character that shows a code of seven bits within a line.
ghost use Rattle.std.specs.Prelude.{◌≡◌, ◌<◌, ◌++◌, IfNone, IfSome, OnOk};
ghost use Rattle.apple_text.specs.Reading.{BeginsWithNone, IsBehind};
ghost use Rattle.apple_text.specs.Shown.{character};

use std::alloc::{AllocError, Allocator};

/// Puts the character that shows a code of seven bits behind a text: the code itself where it prints, and else its
/// picture.
///
/// # Errors
/// Want of memory alone.
pub fn push_character<A: Allocator>(text: &mut Vec<u8, A>, code: u8) -> Result<(), AllocError>
    requires { code < 128 }
    ensures { OnOk result (text.new.items ≡ text.old.items ++ character code) }
{
    match code {
        0x00..=0x1f => text.extend_from_slice(&[0xe2, 0x90, 0x80 + code]),
        0x7f => text.extend_from_slice(&[0xe2, 0x90, 0xa1]),
        _ => {
            text.push(code)?;
            Ok(())
        }
    }
}

/// The code whose character a text begins with, and the text behind that character.
pub fn first_character(text: &[u8]) -> Option<(u8, &[u8])>
    ensures some { IfSome result (λ first. IsBehind text.now first.0 first.1.now) }
    ensures none { IfNone result (BeginsWithNone text.now) }
{
    match text {
        [code @ 0x20..=0x7e, rest @ ..] => Some((*code, rest)),
        [0xe2, 0x90, last @ 0x80..=0x9f, rest @ ..] => Some((*last - 0x80, rest)),
        [0xe2, 0x90, 0xa1, rest @ ..] => Some((0x7f, rest)),
        _ => None,
    }
}
