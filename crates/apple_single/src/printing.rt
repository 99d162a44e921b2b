// Printing a file.
ghost use Rattle.std.specs.Prelude.{◌≡◌, ◌<◌, ◌≤◌, ◌+◌, ◌^◌, ◌↔◌, ◌++◌, IfNone, IfOk, IfSome, OnOk, length, replicate};
ghost use Rattle.apple_single.specs.Format.{header, info_bytes};
ghost use Rattle.apple_single.specs.Printed.{IsTooLong, printed_entries, single_bytes};

use crate::entries::{DATA_FORK, Entry, FILE_INFO, REAL_NAME};
use crate::error::PrintError;
use crate::header::push_header;
use crate::numbers::{push_u16, push_u32};
use crate::single::FileInfo;
use std::alloc::{AllocError, Allocator};

// Where the name begins.
const NAME_AT: u32 = 62;

// The bytes of a file info.
const INFO_SIZE: u32 = 8;

// Where the data fork begins behind a name of no bytes.
const FORK_AT: u32 = 70;

// The greatest offset, and the greatest length.
const MOST: usize = 0xffff_ffff;

// The entries of a file, for a name and a data fork of these many bytes, where the numbers fit.
fn printed_entries(name: usize, fork: usize) -> Option<[Entry; 3]>
    ensures some { IfSome result (λ entries. entries ≡ printed_entries name fork) }
    ensures fit { IfSome result (λ _. (70 + name < 2 ^ 32) × (fork < 2 ^ 32)) }
    ensures none { IfNone result (IsTooLong name fork) }
{
    if name > MOST - FORK_AT as usize || fork > MOST {
        return None;
    }
    let name = name as u32;
    Some([
        Entry {
            id: REAL_NAME,
            offset: NAME_AT,
            size: name,
        },
        Entry {
            id: FILE_INFO,
            offset: NAME_AT + name,
            size: INFO_SIZE,
        },
        Entry {
            id: DATA_FORK,
            offset: FORK_AT + name,
            size: fork as u32,
        },
    ])
}

// Puts a file info behind a file.
fn push_info<A: Allocator>(file: &mut Vec<u8, A>, info: FileInfo) -> Result<(), AllocError>
    ensures { OnOk result (file.new.items ≡ file.old.items ++ info_bytes info) }
{
    push_u16(file, info.access)?;
    push_u16(file, u16::from(info.file_type))?;
    push_u32(file, u32::from(info.aux_type))
}

// The file of some entries, a name, a file info and a data fork.
fn file_of<A: Allocator>(
    alloc: A,
    entries: &[Entry],
    name: &[u8],
    info: FileInfo,
    fork: &[u8],
) -> Result<Vec<u8, A>, AllocError>
    requires few { length entries.now ≤ 64 }
    requires short { length name.now + length fork.now < 2 ^ 34 }
    ensures { IfOk result (λ file. file.items
        ≡ header (replicate 16 0) entries.now ++ name.now ++ info_bytes info ++ fork.now) }
{
    let mut file = Vec::with_capacity(alloc, FORK_AT as usize + name.len() + fork.len())?;
    push_header(&mut file, entries)?;
    file.extend_from_slice(name)?;
    push_info(&mut file, info)?;
    file.extend_from_slice(fork)?;
    Ok(file)
}

/// The AppleSingle file of a name, its file info and its data fork, one behind the other from byte 62 on.
///
/// # Errors
/// `TooLong` where the data fork has 2 ^ 32 bytes or more, or where it would begin at 2 ^ 32 or later; `Memory` for
/// want of memory.
pub fn print<A: Allocator>(
    alloc: A,
    name: &[u8],
    info: FileInfo,
    fork: &[u8],
) -> Result<Vec<u8, A>, PrintError>
    ensures printed { IfOk result (λ file. file.items ≡ single_bytes name.now info fork.now) }
    ensures long { result ≡ Err PrintError.TooLong ↔ IsTooLong (length name.now) (length fork.now) }
{
    let Some(entries) = printed_entries(name.len(), fork.len()) else {
        return Err(PrintError::TooLong);
    };
    Ok(file_of(alloc, &entries, name, info, fork)?)
}
