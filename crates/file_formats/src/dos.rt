// DOS 3.3 as a format of files.
ghost use Rattle.std.specs.Prelude.{◌≡◌, ◌≤◌, ◌+◌, length, take, drop, slice_index, slice_range, IfOk};
ghost use Rattle.file_formats.specs.Catalog.{list_entry};
ghost use Rattle.file_formats.specs.DosFiles.{dos_matches, dos_name, filled_name, number_at, dos_body};
ghost use Rattle.file_formats.specs.FileNames.{name_view};

use crate::{FileFormat, FileName, ListEntry, StoredName};
use dos_catalog::Entry;
use dos_format::{Dos33, DosVolume};
use pro_dir::ProDate;
use std::alloc::{AllocError, Allocator};

/// The bytes of a name.
const NAME_BYTES: usize = 30;

/// DOS 3.3 keeps no dates.
const NO_DATE: ProDate = ProDate([0; 4]);

// A name as it is stored: high bits on, and spaces up to 30 bytes.
fn stored_name(path: &[u8]) -> [u8; 30]
    requires { length path.now ≤ 30 }
    ensures { result ≡ dos_name path.now }
{
    let mut name = [0xa0; NAME_BYTES];
    for (i, byte) in path.iter().enumerate() {
        name[i] = *byte | 0x80;
    }
    name
}

// Stored bytes that are given, with spaces up to 30.
fn filled_name(bytes: &[u8]) -> [u8; 30]
    requires { length bytes.now ≤ 30 }
    ensures { result ≡ filled_name bytes.now }
{
    let mut name = [0xa0; NAME_BYTES];
    name[..bytes.len()].copy_from_slice(bytes);
    name
}

// Whether a name is that of stored bytes.
fn is_name(name: FileName<'_>, stored: &[u8]) -> bool
    ensures { result ≡ dos_matches (name_view name.entry) stored.now }
{
    match name {
        FileName::Path(path) => path.len() <= NAME_BYTES && stored_name(path).as_slice() == stored,
        FileName::Stored(bytes) => {
            1 <= bytes.len() && bytes.len() <= NAME_BYTES && filled_name(bytes).as_slice() == stored
        }
    }
}

// What is shown of an entry.
fn list_entry<A: Allocator>(alloc: A, entry: &Entry) -> Result<ListEntry<A>, AllocError>
    ensures { IfOk result (λ listed. listed ≡ list_entry entry.now) }
{
    let path = StoredName::copy_of(alloc, entry.name())?;
    Ok(ListEntry {
        locked: entry.locked(),
        kind: entry.kind(),
        size: entry.sectors(),
        eof: 0,
        access: 0,
        aux: 0,
        created: NO_DATE,
        modified: NO_DATE,
        directory: false,
        path,
    })
}

// A byte of a text, or 0 behind its end.
fn byte_at(text: &[u8], at: usize) -> u8
    ensures { result ≡ slice_index text.now at }
{
    match text.get(at) {
        Some(byte) => *byte,
        None => 0,
    }
}

// A number of two bytes, the low one first; what is behind the text's end is 0.
fn number_at(text: &[u8], at: usize) -> u16
    requires { at ≤ 2 }
    ensures { result ≡ number_at text.now at }
{
    u16::from_le_bytes([byte_at(text, at), byte_at(text, at + 1)])
}

/// The address of a binary file of DOS 3.3 that has this whole text.
pub fn address_of(text: &[u8]) -> u16
    ensures { result ≡ number_at text.now 0 }
{
    number_at(text, 0)
}

// So many bytes of a text, behind its front.
fn part_behind<A: Allocator>(mut text: Vec<u8, A>, front: usize, len: usize) -> Vec<u8, A>
    ensures { result.items ≡ take len (drop front text.items) }
{
    let front = front.min(text.len());
    text.drain(..front);
    text.truncate(len);
    text
}

// The body of a file of this kind.
fn body_of<A: Allocator>(kind: u8, text: Vec<u8, A>) -> Vec<u8, A>
    ensures { result.items ≡ dos_body kind text.items }
{
    match kind {
        0x01 | 0x02 => {
            let len = usize::from(number_at(&text, 0));
            part_behind(text, 2, len)
        }
        0x04 => {
            let len = usize::from(number_at(&text, 2));
            part_behind(text, 4, len)
        }
        _ => text,
    }
}

impl<A: Allocator + Copy> FileFormat for Dos33<A> {
    ghost use Rattle.file_formats.specs.DosFiles.{dos_files};

    ghost files = { λ f. dos_files };

    fn matches(&self, volume: &DosVolume<A>, file: u32, name: FileName<'_>) -> bool {
        let entry = &volume.catalog().entries()[file as usize];
        is_name(name, entry.name())
    }

    fn list_entry<B: Allocator>(
        &self,
        alloc: B,
        volume: &DosVolume<A>,
        file: u32,
    ) -> Result<ListEntry<B>, AllocError> {
        list_entry(alloc, &volume.catalog().entries()[file as usize])
    }

    fn name<B: Allocator>(
        &self,
        alloc: B,
        volume: &DosVolume<A>,
    ) -> Result<StoredName<B>, AllocError> {
        StoredName::copy_of(alloc, &[volume.vtoc().volume()])
    }

    fn free_count(&self, volume: &DosVolume<A>) -> u32 {
        volume.vtoc().free_count()
    }

    fn body<B: Allocator>(
        &self,
        volume: &DosVolume<A>,
        file: u32,
        text: Vec<u8, B>,
    ) -> Result<Vec<u8, B>, AllocError> {
        let entry = &volume.catalog().entries()[file as usize];
        Ok(body_of(entry.kind(), text))
    }
}
