// The number and the tail of a name on the host.
ghost use Rattle.std.specs.Prelude.{◌≡◌, ◌++◌, OnOk};
ghost use Rattle.host_folders.specs.HostNames.{aux_of, dos_aux, dos_type, entry_view, tail, told_number, told_tail};
ghost use Rattle.host_folders.specs.HostNames.{type_of};

use crate::entry::{Naming, Stored};
use crate::letters::digits;
use std::alloc::{AllocError, Allocator};
use vol_layout::PlaceForm;

// The type of ProDOS for a kind of DOS 3.3.
fn dos_type(kind: u8) -> u8
    ensures { result ≡ dos_type kind }
{
    match kind {
        0x00 => 0x04,
        0x01 => 0xfa,
        0x02 => 0xfc,
        0x04 => 0x06,
        0x08 => 0xf2,
        0x10 => 0xfe,
        0x20 => 0xf3,
        0x40 => 0xf4,
        _ => 0x00,
    }
}

// The aux type for a kind of DOS 3.3.
fn dos_aux(kind: u8, address: u16) -> u16
    ensures { result ≡ dos_aux kind address }
{
    match kind {
        0x02 => 0x0801,
        0x04 => address,
        0x00 | 0x01 | 0x08 | 0x10 | 0x20 | 0x40 => 0,
        _ => u16::from(kind),
    }
}

impl Stored<'_> {
    /// Its type of ProDOS: of DOS 3.3 the one that its kind has there, or 0 where it has none.
    pub fn file_type(&self) -> u8
        ensures { result ≡ type_of (entry_view self.now) }
    {
        match self.form {
            PlaceForm::Sector => dos_type(self.kind),
            PlaceForm::Block => self.kind,
        }
    }

    /// Its aux type of ProDOS: of DOS 3.3 where it is loaded, or its kind where that has no type.
    pub fn aux_type(&self) -> u16
        ensures { result ≡ aux_of (entry_view self.now) }
    {
        match self.form {
            PlaceForm::Sector => dos_aux(self.kind, self.aux),
            PlaceForm::Block => self.aux,
        }
    }
}

/// Puts the number of a name behind a text: nothing for 1.
pub(crate) fn push_number<A: Allocator + Copy>(
    alloc: A,
    text: &mut Vec<u8, A>,
    number: u32,
) -> Result<(), AllocError>
    ensures { OnOk result (text.new.items ≡ text.old.items ++ told_number number) }
{
    if number == 1 {
        return Ok(());
    }
    let told = format!(in alloc; "~{number}")?;
    text.extend_from_slice(told.as_bytes())
}

// Puts a type and an aux type behind a text.
fn push_told_tail<A: Allocator>(text: &mut Vec<u8, A>, kind: u8, aux: u16) -> Result<(), AllocError>
    ensures { OnOk result (text.new.items ≡ text.old.items ++ told_tail kind aux) }
{
    let [high, low] = aux.to_be_bytes();
    text.push(b'#')?;
    text.extend_from_slice(&digits(kind))?;
    text.extend_from_slice(&digits(high))?;
    text.extend_from_slice(&digits(low))
}

/// Puts the tail of an entry behind a text: nothing for a folder; where types are not told, nothing but for a readable
/// form.
pub(crate) fn push_tail<A: Allocator>(
    text: &mut Vec<u8, A>,
    naming: Naming,
    stored: &Stored,
) -> Result<(), AllocError>
    ensures { OnOk result (text.new.items ≡ text.old.items ++ tail naming (entry_view stored.now)) }
{
    match naming {
        Naming::Naps if !stored.directory => {
            push_told_tail(text, stored.file_type(), stored.aux_type())
        }
        Naming::Plain if stored.text => text.extend_from_slice(".txt".as_bytes()),
        _ => Ok(()),
    }
}
