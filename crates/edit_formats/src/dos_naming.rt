// Names of files in a DOS 3.3 catalog.
ghost use Rattle.std.specs.Prelude.{◌≡◌, ◌≤◌, nat_le, length, slice_index, slice_range};
ghost use Rattle.std.specs.List.{list_all, list_any};
ghost use Rattle.std.specs.Str.{bytes_eq};
ghost use Rattle.dos_catalog.specs.declared.entry.Entry.{Entry as CatalogEntry};
ghost use Rattle.file_formats.specs.DosFiles.{dos_name};
ghost use Rattle.edit_formats.specs.DosNames.{is_name_byte, is_first_byte, is_dos_name};

use dos_catalog::Entry;

/// The bytes of a name.
const NAME_BYTES: usize = 30;

// A character from the space to the tilde that is no comma.
fn is_name_byte(byte: u8) -> bool
    ensures { result ≡ is_name_byte byte }
{
    0x20 <= byte && byte <= 0x7e && byte != b','
}

// A capital letter.
fn is_first_byte(byte: u8) -> bool
    ensures { result ≡ is_first_byte byte }
{
    b'A' <= byte && byte <= b'Z'
}

// Whether a name has none but these.
fn has_name_bytes(name: &[u8]) -> bool
    ensures { result ≡ list_all is_name_byte name.now }
{
    name.iter().all(|byte| is_name_byte(*byte))
}

/// Whether a file may get a name, in DOS 3.3.
pub fn is_dos_name(name: &[u8]) -> bool
    ensures { result ≡ is_dos_name name.now }
{
    1 <= name.len()
        && name.len() <= NAME_BYTES
        && is_first_byte(name[0])
        && name[name.len() - 1] != b' '
        && has_name_bytes(name)
}

/// A name as it is stored in a DOS 3.3 catalog: high bits on, and spaces up to 30 bytes.
pub fn dos_name(name: &[u8]) -> [u8; 30]
    requires { length name.now ≤ 30 }
    ensures { result ≡ dos_name name.now }
{
    let mut stored = [0xa0; NAME_BYTES];
    for (i, byte) in name.iter().enumerate() {
        stored[i] = *byte | 0x80;
    }
    stored
}

/// Whether some entry of a catalog has a name, as it is stored.
pub fn has_name(entries: &[Entry], name: &[u8; 30]) -> bool
    ensures { result ≡ list_any (λ (entry : CatalogEntry). bytes_eq
        (slice_range entry.bytes 3 33) name.now) entries.now }
{
    entries.iter().any(|entry| entry.name() == name.as_slice())
}

// Whether the bit that locks a file is on.
pub(crate) fn is_locked(entry: &Entry) -> bool
    ensures { result ≡ nat_le 0x80 (slice_index entry.now.bytes 2) }
{
    entry.locked()
}
