// What the words say of a new file.
ghost use Rattle.std.specs.Prelude.{◌≡◌};
ghost use Rattle.shop_changes.specs.GivenWords.{
  binary_kind,
  dos_head,
  dos_kind_for,
  head_of,
  hex_byte,
  hex_value,
  kind_for,
  kind_named,
  kind_unsaid,
  letter_kind,
  text_kind,
  usual_kind,
};

use crate::given_file::Head;
use file_forms::GivenForm;
use shop_jobs::FileSystem;

// The type that a letter names.
fn letter_kind(letter: &str) -> Option<u8>
    ensures { result ≡ letter_kind letter.now }
{
    match letter {
        "T" => Some(0x00),
        "I" => Some(0x01),
        "A" => Some(0x02),
        "B" => Some(0x04),
        "S" => Some(0x08),
        "R" => Some(0x10),
        _ => None,
    }
}

// The value of a hexadecimal digit.
fn hex_value(digit: u8) -> Option<u8>
    ensures { result ≡ hex_value digit }
{
    match digit {
        b'0'..=b'9' => Some(digit - b'0'),
        b'A'..=b'F' => Some(digit - b'A' + 10),
        b'a'..=b'f' => Some(digit - b'a' + 10),
        _ => None,
    }
}

// The number of two hexadecimal digits.
fn hex_byte(digits: &[u8]) -> Option<u8>
    ensures { result ≡ hex_byte digits.now }
{
    match digits {
        [high, low] => Some(16 * hex_value(*high)? + hex_value(*low)?),
        _ => None,
    }
}

/// The type that a word names: of DOS 3.3 one of the letters T I A B S R, of ProDOS two hexadecimal digits of either
/// case.
pub fn kind_named(file_system: FileSystem, word: &str) -> Option<u8>
    ensures { result ≡ kind_named file_system word.now }
{
    match file_system {
        FileSystem::Dos => letter_kind(word),
        FileSystem::Prodos => hex_byte(word.as_bytes()),
    }
}

/// The type of a new file where none is said: T of DOS 3.3, 06 of ProDOS.
pub fn usual_kind(file_system: FileSystem) -> u8
    ensures { result ≡ usual_kind file_system }
{
    match file_system {
        FileSystem::Dos => 0x00,
        FileSystem::Prodos => 0x06,
    }
}

// The type of binary files: B of DOS 3.3, 06 of ProDOS.
fn binary_kind(file_system: FileSystem) -> u8
    ensures { result ≡ binary_kind file_system }
{
    match file_system {
        FileSystem::Dos => 0x04,
        FileSystem::Prodos => 0x06,
    }
}

/// The type of a new file where neither the words nor the form in which it is given say one: the usual type, and that
/// of binary files where it is given in a form.
pub(crate) fn kind_unsaid(file_system: FileSystem, form: Option<GivenForm>) -> u8
    ensures { result ≡ kind_unsaid file_system form }
{
    match form {
        Some(_) => binary_kind(file_system),
        None => usual_kind(file_system),
    }
}

/// The type of texts: T of DOS 3.3, 04 of ProDOS.
pub(crate) fn text_kind(file_system: FileSystem) -> u8
    ensures { result ≡ text_kind file_system }
{
    match file_system {
        FileSystem::Dos => 0x00,
        FileSystem::Prodos => 0x04,
    }
}

// The type of DOS 3.3 for one of ProDOS.
fn dos_kind_for(file_type: u8) -> Option<u8>
    ensures { result ≡ dos_kind_for file_type }
{
    match file_type {
        0x04 => Some(0x00),
        0xfa => Some(0x01),
        0xfc => Some(0x02),
        0x06 => Some(0x04),
        0xf2 => Some(0x08),
        0xfe => Some(0x10),
        _ => None,
    }
}

/// The type in a file system for one of ProDOS: DOS 3.3 has six of them.
pub fn kind_for(file_system: FileSystem, file_type: u8) -> Option<u8>
    ensures { result ≡ kind_for file_system file_type }
{
    match file_system {
        FileSystem::Dos => dos_kind_for(file_type),
        FileSystem::Prodos => Some(file_type),
    }
}

// What DOS 3.3 puts before the bytes of a file of a type.
fn dos_head(kind: u8) -> Head
    ensures { result ≡ dos_head kind }
{
    match kind {
        0x01 | 0x02 => Head::Length,
        0x04 => Head::AddressAndLength,
        _ => Head::None,
    }
}

/// What a file system puts before the bytes of a file of a type.
pub fn head_of(file_system: FileSystem, kind: u8) -> Head
    ensures { result ≡ head_of file_system kind }
{
    match file_system {
        FileSystem::Dos => dos_head(kind),
        FileSystem::Prodos => Head::None,
    }
}
