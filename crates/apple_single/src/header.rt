// The header of a file.
ghost use Rattle.std.specs.Prelude.{◌≡◌, ◌≤◌, ◌++◌, ℕ, List, IfNone, IfSome, OnOk, length, replicate};
ghost use Rattle.apple_single.specs.Format.{header, magic_number, version_2};
ghost use Rattle.apple_single.specs.Reading.{IsCounted, IsNotCounted, IsTable};
ghost use Rattle.apple_single.specs.Single.{IsHeader};

use crate::entries::{Entry, push_entries};
use crate::numbers::{push_u16, split_u16};
use std::alloc::{AllocError, Allocator};

// The bytes of filler.
const FILLER: usize = 16;

// The bytes of an entry.
const ENTRY: usize = 12;

// The most entries that a file may have.
const MOST: u16 = 64;

// What stands behind the magic number and the version.
fn behind_version(file: &[u8]) -> Option<&[u8]>
    ensures some { IfSome result (λ rest. file.now ≡ magic_number ++ version_2 ++ rest.now) }
    ensures none { IfNone result ((rest : List ℕ) → file.now ≡ magic_number ++ version_2 ++ rest → ⊥) }
{
    match file {
        [0x00, 0x05, 0x16, 0x00, 0x00, 0x02, 0x00, 0x00, rest @ ..] => Some(rest),
        _ => None,
    }
}

// How many entries a file says that it has, and what stands behind that.
fn counted(file: &[u8]) -> Option<(u16, &[u8])>
    ensures some { IfSome result (λ head. IsCounted file.now head.0 head.1.now) }
    ensures none { IfNone result (IsNotCounted file.now) }
{
    let rest = behind_version(file)?;
    let rest = rest.get(FILLER..)?;
    split_u16(rest)
}

/// The bytes of the entries of a file, where it begins with a header.
pub(crate) fn table_of(file: &[u8]) -> Option<&[u8]>
    ensures some { IfSome result (λ table. (entries : List Entry) × IsHeader file.now entries
        × IsTable table.now entries) }
    ensures none { IfNone result ((entries : List Entry) → ¬ IsHeader file.now entries) }
{
    let (count, rest) = counted(file)?;
    if count > MOST {
        return None;
    }
    rest.get(..ENTRY * usize::from(count))
}

/// Puts a header with some entries, and zeros as its filler, behind a file.
///
/// # Errors
/// Want of memory alone.
pub(crate) fn push_header<A: Allocator>(
    file: &mut Vec<u8, A>,
    entries: &[Entry],
) -> Result<(), AllocError>
    requires { length entries.now ≤ 64 }
    ensures { OnOk result (file.new.items ≡ file.old.items ++ header (replicate 16 0) entries.now) }
{
    file.extend_from_slice(&[0x00, 0x05, 0x16, 0x00, 0x00, 0x02, 0x00, 0x00])?;
    file.extend_from_slice(&[0; FILLER])?;
    push_u16(file, entries.len() as u16)?;
    push_entries(file, entries)
}
