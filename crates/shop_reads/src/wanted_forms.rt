// A file of a volume, in the form that is wanted of it.
ghost use Rattle.std.specs.Prelude.{◌≡◌, ◌<◌, IfNone, IfOk, IfSome, map};
ghost use Rattle.apple_text.specs.Shown.{low};
ghost use Rattle.file_forms.specs.Found.{file_view};
ghost use Rattle.shop_reads.specs.FileForms.{
  IsInWantedForm,
  LacksWantedForm,
  access_in as told_access,
  address_in as told_address,
  form_wanted as wanted_of,
  found_in,
  info_in,
  real_name as told_name,
};
ghost use Rattle.vol_format.specs.Directory.{entries, entry_of};

use crate::listing::ShownFormat;
use apple_single::FileInfo;
use file_formats::{ListEntry, address_of};
use file_forms::{FileForm, FormError, FoundFile, in_form};
use host_folders::{Stored, name_bytes};
use shop_jobs::ReadForm;
use std::alloc::{AllocError, Global};
use vol_layout::PlaceForm;

/// The access of a file of DOS 3.3 that is not locked, and of one that is.
const UNLOCKED: u8 = 0xc3;

const LOCKED: u8 = 0x01;

// The low seven bits of bytes.
fn low_bytes(alloc: Global, bytes: &[u8]) -> Result<Vec<u8>, AllocError>
    ensures { IfOk result (λ codes. codes.items ≡ map low bytes.now) }
{
    let mut codes = Vec::new(alloc);
    for byte in bytes {
        codes.push(*byte % 128)?;
    }
    Ok(codes)
}

// What stands behind the last slash of a path.
fn behind_last_slash(path: &[u8]) -> &[u8]
    ensures { result.now ≡ told_name PlaceForm.Block path.now }
{
    let mut start = path.len();
    while start > 0 && path[start - 1] != b'/' {
        start -= 1;
    }
    &path[start..]
}

// The name of a file of this stored path in an AppleSingle file.
fn real_name(alloc: Global, form: PlaceForm, path: &[u8]) -> Result<Vec<u8>, AllocError>
    ensures { IfOk result (λ name. name.items ≡ told_name form path.now) }
{
    match form {
        PlaceForm::Sector => low_bytes(alloc, name_bytes(PlaceForm::Sector, path)),
        PlaceForm::Block => Vec::from_slice(alloc, behind_last_slash(path)),
    }
}

// The access of ProDOS of a file whose entry is shown so.
fn access_in(form: PlaceForm, entry: &ListEntry) -> u8
    ensures { result ≡ told_access form entry.now }
{
    match form {
        PlaceForm::Sector if entry.locked => LOCKED,
        PlaceForm::Sector => UNLOCKED,
        PlaceForm::Block => entry.access,
    }
}

// The aux type or the address of a file with this whole text.
fn address_in(form: PlaceForm, entry: &ListEntry, whole: &[u8]) -> u16
    ensures { result ≡ told_address form entry.now whole.now }
{
    match form {
        PlaceForm::Sector => address_of(whole),
        PlaceForm::Block => entry.aux,
    }
}

// Access, type and aux type of a file with this whole text.
fn info_in(form: PlaceForm, entry: &ListEntry, whole: &[u8]) -> FileInfo
    ensures { result ≡ info_in form entry.now whole.now }
{
    let stored = Stored {
        form,
        name: entry.path.as_bytes(),
        kind: entry.kind,
        aux: address_in(form, entry, whole),
        directory: false,
        text: false,
    };
    FileInfo {
        access: u16::from(access_in(form, entry)),
        file_type: stored.file_type(),
        aux_type: stored.aux_type(),
    }
}

// The form that is wanted of a file of a type.
fn form_wanted(wanted: ReadForm, file_type: u8) -> Option<FileForm>
    ensures { result ≡ wanted_of wanted file_type }
{
    match wanted {
        ReadForm::Body | ReadForm::Whole => None,
        ReadForm::As(form) => Some(form),
        ReadForm::Shown => FileForm::of_type(file_type),
    }
}

// A file in the form that is wanted of it; `None` where it has no such form.
fn in_wanted_form(
    alloc: Global,
    wanted: ReadForm,
    file: &FoundFile<'_>,
) -> Result<Option<Vec<u8>>, AllocError>
    ensures some { IfOk result (λ read. IfSome read (λ bytes.
        IsInWantedForm wanted (file_view file.now) bytes.items)) }
    ensures none { IfOk result (λ read. IfNone read (LacksWantedForm wanted (file_view file.now))) }
{
    let Some(form) = form_wanted(wanted, file.info.file_type) else {
        return Ok(None);
    };
    match in_form(alloc, form, file) {
        Ok(bytes) => Ok(Some(bytes)),
        Err(FormError::Form) => Ok(None),
        Err(FormError::Memory) => Err(AllocError),
    }
}

/// The file of an entry with this whole text, in the form that is wanted of it; `None` where it has no such form.
///
/// # Errors
/// Want of memory alone.
pub fn entry_in_form<F: ShownFormat>(
    alloc: Global,
    format: &F,
    volume: &F::Volume,
    entry: u32,
    whole: &[u8],
    wanted: ReadForm,
) -> Result<Option<Vec<u8>>, AllocError>
    requires { entry < entries (F.directory format.now volume.now) }
    ensures some { IfOk result (λ read. IfSome read (λ bytes. IsInWantedForm wanted
        (found_in (F.form format.now) (F.files format.now) (entry_of (F.directory format.now volume.now) entry)
        whole.now) bytes.items)) }
    ensures none { IfOk result (λ read. IfNone read (LacksWantedForm wanted
        (found_in (F.form format.now) (F.files format.now) (entry_of (F.directory format.now volume.now) entry)
        whole.now))) }
{
    let form = format.form();
    let shown = format.list_entry(alloc, volume, entry)?;
    let body = format.body(volume, entry, Vec::from_slice(alloc, whole)?)?;
    let name = real_name(alloc, form, shown.path.as_bytes())?;
    let file = FoundFile {
        system: form,
        name: name.as_slice(),
        info: info_in(form, &shown, whole),
        whole,
        body: body.as_slice(),
    };
    in_wanted_form(alloc, wanted, &file)
}
