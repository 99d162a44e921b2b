// Numbers, the low byte first.
ghost use Rattle.std.specs.Prelude.{◌≡◌, ◌≤◌, ◌+◌, ◌++◌, OnOk, length};
ghost use Rattle.disk_container.specs.Format.{four_at, two_at};
ghost use Rattle.disk_container.specs.Wrapped.{four_bytes, two_bytes};

use std::alloc::{AllocError, Allocator};

/// The number of two bytes at an offset.
pub(crate) fn u16_at(bytes: &[u8], at: usize) -> u16
    requires { at + 2 ≤ length bytes.now }
    ensures { result ≡ two_at bytes.now at }
{
    u16::from_le_bytes([bytes[at], bytes[at + 1]])
}

/// The number of four bytes at an offset.
pub(crate) fn u32_at(bytes: &[u8], at: usize) -> u32
    requires { at + 4 ≤ length bytes.now }
    ensures { result ≡ four_at bytes.now at }
{
    u32::from_le_bytes([bytes[at], bytes[at + 1], bytes[at + 2], bytes[at + 3]])
}

/// Puts a number behind a file as two bytes.
///
/// # Errors
/// Want of memory alone.
pub(crate) fn push_u16<A: Allocator>(file: &mut Vec<u8, A>, number: u16) -> Result<(), AllocError>
    ensures { OnOk result (file.new.items ≡ file.old.items ++ two_bytes number) }
{
    file.extend_from_slice(&number.to_le_bytes())
}

/// Puts a number behind a file as four bytes.
///
/// # Errors
/// Want of memory alone.
pub(crate) fn push_u32<A: Allocator>(file: &mut Vec<u8, A>, number: u32) -> Result<(), AllocError>
    ensures { OnOk result (file.new.items ≡ file.old.items ++ four_bytes number) }
{
    file.extend_from_slice(&number.to_le_bytes())
}
