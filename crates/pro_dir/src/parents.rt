// The directory in which each entry stands.
ghost use Rattle.std.specs.Prelude.{◌≡◌, ◌<◌, ◌≤◌, ℕ, true, None, Some, if◌then◌else◌, length, slice_index_or, IfOk};
ghost use Rattle.pro_dir.specs.Entry.{is_directory, key_of};
ghost use Rattle.pro_dir.specs.Parents.{
  KnowsDirectories,
  entry_in,
  last_directory as last_of,
  leads_to as leads,
  parent_of as parent_in,
};

use crate::Entry;
use std::alloc::{AllocError, Allocator};

/// An entry by its number.
pub fn entry_at(entries: &[Entry], number: usize) -> &Entry
    requires { number < length entries.now }
    ensures { result.now ≡ entry_in entries.now number }
{
    &entries[number]
}

// One more than the greatest key block that an entry of a directory names.
fn keys_end(entries: &[Entry]) -> usize
    ensures { (number : ℕ) → number < length entries.now → is_directory (entry_in entries.now number) ≡ true
        → key_of (entry_in entries.now number) < result }
{
    let mut end = 0;
    for number in 0..entries.len() {
        let entry = &entries[number];
        if entry.is_directory() && entry.key() as usize >= end {
            end = entry.key() as usize + 1;
        }
    }
    end
}

// What a table of entries has at a number.
fn known_at(known: &[Option<u32>], key: u32) -> Option<u32>
    ensures { result ≡ slice_index_or known.now key None }
{
    match known.get(key as usize) {
        Some(number) => *number,
        None => None,
    }
}

// Notes the number of an entry at the key block that it names, if it is a directory's.
fn note<A: Allocator>(known: &mut Vec<Option<u32>, A>, entry: &Entry, number: u32)
    requires { is_directory entry.now ≡ true → key_of entry.now < length known.old.items }
    ensures known { (key : ℕ) → slice_index_or known.new.items key None
        ≡ (if leads entry.now key then Some number else slice_index_or known.old.items key None) }
    ensures size { length known.new.items ≡ length known.old.items }
{
    if entry.is_directory() {
        known[entry.key() as usize] = Some(number);
    }
}

/// For each key block the number of the last entry of a directory that names it, if there is one.
pub fn directories_of<A: Allocator + Copy>(
    alloc: A,
    entries: &[Entry],
) -> Result<Vec<Option<u32>, A>, AllocError>
    requires { length entries.now < 4294967296 }
    ensures { IfOk result (λ known. KnowsDirectories entries.now known.items) }
{
    let mut known = vec![in alloc; None; keys_end(entries)]?;
    for number in 0..entries.len() {
        note(&mut known, entry_at(entries, number), number as u32);
    }
    Ok(known)
}

// Whether an entry is of the directory with a key block.
fn leads_to(entry: &Entry, key: u32) -> bool
    ensures { result ≡ leads entry.now key }
{
    entry.is_directory() && entry.key() == key
}

// The last of the first entries, so many, that is of the directory with a key block.
fn last_directory(entries: &[Entry], count: u32, key: u32) -> Option<u32>
    requires { count ≤ length entries.now }
    ensures { result ≡ last_of entries.now count key }
{
    for number in (0..count).rev() {
        if leads_to(&entries[number as usize], key) {
            return Some(number);
        }
    }
    None
}

/// The entry of the directory in which an entry stands, if that is not the volume's.
pub fn parent_of(entries: &[Entry], directories: &[Option<u32>], number: u32) -> Option<u32>
    requires within { number < length entries.now }
    requires known { KnowsDirectories entries.now directories.now }
    ensures { result ≡ parent_in entries.now number }
{
    let key = entry_at(entries, number as usize).directory as u32;
    match known_at(directories, key) {
        None => None,
        Some(parent) if parent < number => Some(parent),
        // In a tree an entry comes behind that of its directory. What a device tells that lies is looked through.
        Some(_) => last_directory(entries, number, key),
    }
}
