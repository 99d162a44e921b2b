// The stem of a name on the host: the stored name, byte by byte.
ghost use Rattle.std.specs.Prelude.{◌≡◌, ◌++◌, OnOk, IfOk};
ghost use Rattle.host_folders.specs.HostNames.{block_piece, name_bytes, piece, sector_piece, stem};

use crate::letters::{escape, is_plain, is_printed, without_end};
use std::alloc::{AllocError, Allocator};
use vol_layout::PlaceForm;

/// The bytes of a stored name that count: of DOS 3.3 those before the spaces that fill it up.
pub fn name_bytes(form: PlaceForm, name: &[u8]) -> &[u8]
    ensures { result.now ≡ name_bytes form name.now }
{
    match form {
        PlaceForm::Sector => without_end(name, 0xa0),
        PlaceForm::Block => name,
    }
}

// Puts a byte of DOS 3.3 behind a text.
fn push_sector_piece<A: Allocator>(text: &mut Vec<u8, A>, byte: u8) -> Result<(), AllocError>
    ensures { OnOk result (text.new.items ≡ text.old.items ++ sector_piece byte) }
{
    if byte < 0x20 {
        return text.extend_from_slice(&escape(byte));
    }
    if byte < 0x80 {
        text.extend_from_slice(&escape(0x7f))?;
        return text.extend_from_slice(&escape(byte));
    }
    let c = byte - 0x80;
    if is_plain(c) {
        text.push(c)?;
        Ok(())
    } else if is_printed(c) {
        text.extend_from_slice(&escape(c))
    } else {
        text.extend_from_slice(&escape(byte))
    }
}

// Puts a byte of ProDOS behind a text.
fn push_block_piece<A: Allocator>(text: &mut Vec<u8, A>, byte: u8) -> Result<(), AllocError>
    ensures { OnOk result (text.new.items ≡ text.old.items ++ block_piece byte) }
{
    if is_plain(byte) {
        text.push(byte)?;
        Ok(())
    } else {
        text.extend_from_slice(&escape(byte))
    }
}

// Puts a byte of a stored name behind a text.
fn push_piece<A: Allocator>(
    text: &mut Vec<u8, A>,
    form: PlaceForm,
    byte: u8,
) -> Result<(), AllocError>
    ensures { OnOk result (text.new.items ≡ text.old.items ++ piece form byte) }
{
    match form {
        PlaceForm::Sector => push_sector_piece(text, byte),
        PlaceForm::Block => push_block_piece(text, byte),
    }
}

/// The stem of a stored name.
pub(crate) fn stem<A: Allocator>(
    alloc: A,
    form: PlaceForm,
    name: &[u8],
) -> Result<Vec<u8, A>, AllocError>
    ensures { IfOk result (λ text. text.items ≡ stem form name.now) }
{
    let bytes = name_bytes(form, name);
    let mut text = Vec::new(alloc);
    for byte in bytes {
        push_piece(&mut text, form, *byte)?;
    }
    if text.is_empty() {
        text.push(b'%')?;
    }
    Ok(text)
}
