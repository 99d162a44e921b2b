// Names of files in a ProDOS directory.
ghost use Rattle.std.specs.Prelude.{◌≡◌, ◌≤◌, ◌<◌, ◌&&◌, nat_lt, length, IsTrue};
ghost use Rattle.std.specs.List.{list_all};
ghost use Rattle.pro_dir.specs.Parents.{entry_in};
ghost use Rattle.pro_dir.specs.Paths.{folded};
ghost use Rattle.a2_device.specs.declared.fault.WalkError.{WalkError};
ghost use Rattle.edit_formats.specs.ProNames.{is_letter, is_name_byte, is_pro_name, is_name_in, pro_name};
ghost use Rattle.edit_formats.specs.Renamed.{refusal_of_walk};

use crate::EditError;
use a2_device::WalkError;
use pro_dir::Entry;

/// The bytes of a name.
const NAME_BYTES: usize = 15;

// Letters of either case.
fn is_letter(byte: u8) -> bool
    ensures { result ≡ is_letter byte }
{
    (b'A' <= byte && byte <= b'Z') || (b'a' <= byte && byte <= b'z')
}

// Letters, digits and the period.
fn is_name_byte(byte: u8) -> bool
    ensures { result ≡ is_name_byte byte }
{
    is_letter(byte) || (b'0' <= byte && byte <= b'9') || byte == b'.'
}

// Whether a name has none but these.
fn has_name_bytes(name: &[u8]) -> bool
    ensures { result ≡ list_all is_name_byte name.now }
{
    name.iter().all(|byte| is_name_byte(*byte))
}

/// Whether a file may get a name, in ProDOS.
pub fn is_pro_name(name: &[u8]) -> bool
    ensures { result ≡ is_pro_name name.now }
{
    1 <= name.len() && name.len() <= NAME_BYTES && is_letter(name[0]) && has_name_bytes(name)
}

/// A name as it is stored in a ProDOS directory: its letters as capitals, and 00 behind it up to 15 bytes.
pub fn pro_name(name: &[u8]) -> [u8; 15]
    requires { length name.now ≤ 15 }
    ensures { result ≡ pro_name name.now }
{
    let mut stored = [0; NAME_BYTES];
    for (i, byte) in name.iter().enumerate() {
        stored[i] = byte.to_ascii_uppercase();
    }
    stored
}

/// Whether some entry that stands in a directory, by its key block, has a name.
pub fn is_name_in(key: u32, name: &[u8], entries: &[Entry]) -> bool
    ensures { result ≡ is_name_in key name.now entries.now }
{
    entries.iter().any(|entry| entry.directory as u32 == key && entry.name() == name)
}

// Whether an entry that stands in the directory of this one has a name.
pub(crate) fn has_name_beside(entries: &[Entry], file: u32, name: &[u8]) -> bool
    requires { length name.now ≤ 15 }
    ensures { result ≡ (nat_lt file (length entries.now) && is_name_in (entry_in entries.now file).directory
        (folded name.now) entries.now) }
{
    let Some(own) = entries.get(file as usize) else {
        return false;
    };
    let stored = pro_name(name);
    is_name_in(own.directory as u32, &stored[..name.len()], entries)
}

/// The refusal of a command whose walk over the directories ended early.
pub fn refusal(error: WalkError) -> EditError
    ensures { result ≡ refusal_of_walk error }
{
    match error {
        WalkError::Fault(_) => EditError::Check,
        WalkError::Device => EditError::Device,
        WalkError::Memory => EditError::Memory,
    }
}
