// Numbers, the high byte first.
ghost use Rattle.std.specs.Prelude.{◌≡◌, ◌<◌, ◌++◌, IfNone, IfSome, OnOk, length};
ghost use Rattle.apple_single.specs.Format.{four_bytes, two_bytes};

use std::alloc::{AllocError, Allocator};

/// The number of two bytes that bytes begin with, and what stands behind it.
pub(crate) fn split_u16(bytes: &[u8]) -> Option<(u16, &[u8])>
    ensures some { IfSome result (λ first. bytes.now ≡ two_bytes first.0 ++ first.1.now) }
    ensures none { IfNone result (length bytes.now < 2) }
{
    match bytes {
        [high, low, rest @ ..] => {
            let number = u16::from_be_bytes([*high, *low]);
            Some((number, rest))
        }
        _ => None,
    }
}

/// The number of four bytes that bytes begin with, and what stands behind it.
pub(crate) fn split_u32(bytes: &[u8]) -> Option<(u32, &[u8])>
    ensures some { IfSome result (λ first. bytes.now ≡ four_bytes first.0 ++ first.1.now) }
    ensures none { IfNone result (length bytes.now < 4) }
{
    match bytes {
        [first, second, third, last, rest @ ..] => {
            let number = u32::from_be_bytes([*first, *second, *third, *last]);
            Some((number, rest))
        }
        _ => None,
    }
}

/// Puts a number behind a file as two bytes.
///
/// # Errors
/// Want of memory alone.
pub(crate) fn push_u16<A: Allocator>(file: &mut Vec<u8, A>, number: u16) -> Result<(), AllocError>
    ensures { OnOk result (file.new.items ≡ file.old.items ++ two_bytes number) }
{
    file.extend_from_slice(&number.to_be_bytes())
}

/// Puts a number behind a file as four bytes.
///
/// # Errors
/// Want of memory alone.
pub(crate) fn push_u32<A: Allocator>(file: &mut Vec<u8, A>, number: u32) -> Result<(), AllocError>
    ensures { OnOk result (file.new.items ≡ file.old.items ++ four_bytes number) }
{
    file.extend_from_slice(&number.to_be_bytes())
}
