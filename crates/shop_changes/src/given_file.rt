// The units of a new file.
ghost use Rattle.std.specs.Prelude.{◌≡◌, ◌↔◌, ◌<◌, ◌≤◌, ◌*◌, ◌++◌, true, length, replicate, Err, IfOk, IsTrue, OnOk};
ghost use Rattle.shop_changes.specs.declared.given_error.GivenError.TheVariants.{TooLong};
ghost use Rattle.shop_changes.specs.GivenFile.{
  content,
  given_view,
  head_bytes,
  stored_units,
  two_bytes,
  unit_bytes,
  IsTooLongForHead,
};

use crate::given_error::GivenError;
use pro_dir::ProDate;
use std::alloc::{AllocError, Global};

/// The most bytes of a file that is given.
pub const MOST_INPUT: usize = 16_777_216;

/// What DOS 3.3 puts before the bytes of a file.
#[derive(Clone, Copy, PartialEq, Eq)]
pub enum Head {
    /// Nothing.
    None,
    /// The length, for a BASIC program (types A and I).
    Length,
    /// The address and the length, for a binary file (type B).
    AddressAndLength,
}

/// A new file as its owner gives it.
#[derive(Clone, Copy)]
pub struct GivenFile<'a> {
    pub kind: u8,
    pub aux: u16,
    pub date: ProDate,
    pub head: Head,
    pub bytes: &'a [u8],
}

/// The units of a file, one after the other, and of each whether it is stored.
#[derive(Drop)]
pub struct FileUnits {
    pub stored: Vec<bool>,
    pub units: Vec<u8>,
}

/// The greatest length that two bytes say.
const LONGEST: usize = 65_535;

/// Room for a head, and for the zeros behind the last byte of a block.
const SPARE: usize = 4 + 511;

// Whether the head of a file cannot say its length.
pub(crate) fn is_too_long(given: &GivenFile<'_>) -> bool
    ensures { IsTrue result ↔ IsTooLongForHead (given_view given.now) }
{
    match given.head {
        Head::None => false,
        Head::Length | Head::AddressAndLength => given.bytes.len() > LONGEST,
    }
}

// Puts two bytes behind the others, the low one first.
fn push_word(bytes: &mut Vec<u8>, word: u16) -> Result<(), AllocError>
    ensures { OnOk result (bytes.new.items ≡ bytes.old.items ++ two_bytes word) }
{
    bytes.extend_from_slice(&word.to_le_bytes())
}

// Puts the head of a file, which can say its length, behind the others.
fn push_head(bytes: &mut Vec<u8>, given: &GivenFile<'_>) -> Result<(), AllocError>
    requires { ¬ IsTooLongForHead (given_view given.now) }
    ensures { OnOk result
        (bytes.new.items ≡ bytes.old.items ++ head_bytes given.now.head given.now.aux (length given.now.bytes.now)) }
{
    match given.head {
        Head::None => Ok(()),
        Head::Length => push_word(bytes, given.bytes.len() as u16),
        Head::AddressAndLength => {
            push_word(bytes, given.aux)?;
            push_word(bytes, given.bytes.len() as u16)
        }
    }
}

// The head of a file and its bytes.
fn content(alloc: Global, given: &GivenFile<'_>) -> Result<Vec<u8>, GivenError>
    ensures value { IfOk result (λ bytes. bytes.items ≡ content (given_view given.now)) }
    ensures too_long { (result ≡ Err TooLong) ↔ IsTooLongForHead (given_view given.now) }
{
    if is_too_long(given) {
        return Err(GivenError::TooLong);
    }
    let mut bytes = Vec::with_capacity(alloc, given.bytes.len() + SPARE)?;
    push_head(&mut bytes, given)?;
    bytes.extend_from_slice(given.bytes)?;
    Ok(bytes)
}

/// The units of a file, each of a size: its head and its bytes, the last unit filled with zeros. All of them are
/// stored.
///
/// # Errors
/// `TooLong` exactly where the head of the file cannot say its length, before memory is taken; `Memory`.
pub fn file_units(
    alloc: Global,
    given: &GivenFile<'_>,
    unit_size: usize,
) -> Result<FileUnits, GivenError>
    requires size { 0 < unit_size }
    requires short { length given.now.bytes.now ≤ 16777216 }
    ensures units { IfOk result (λ file. file.units.items ≡ unit_bytes unit_size (content (given_view given.now))) }
    ensures stored { IfOk result (λ file. file.stored.items ≡ stored_units unit_size (content (given_view given.now))) }
    ensures sizes { IfOk result (λ file. unit_size * length file.stored.items ≡ length file.units.items) }
    ensures too_long { (result ≡ Err TooLong) ↔ IsTooLongForHead (given_view given.now) }
{
    let mut units = content(alloc, given)?;
    let count = units.len().div_ceil(unit_size);
    units.resize(unit_size * count, 0)?;
    let stored = vec![in alloc; true; count]?;
    Ok(FileUnits { stored, units })
}
