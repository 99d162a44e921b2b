// What is wanted of the files of a volume beside its entries.
ghost use Rattle.std.specs.Prelude.{◌≡◌, ◌<◌, ◌&&◌, not, ℕ, IfOk, IsFalse, List, false};
ghost use Rattle.std.specs.declared.alloc.Global.{Global};
ghost use Rattle.vol_format.specs.Directory.{Directory, entries, entry_of, is_directory};
ghost use Rattle.file_cmds.specs.Address.{is_binary};
ghost use Rattle.volume_compare.specs.Contents.{volume_in};
ghost use Rattle.shop_reads.specs.EntriesReply.{
  WantsNothing,
  reads_files,
  wants_address,
  wants_places,
};

use crate::listing::ShownFormat;
use file_cmds::is_binary;
use file_formats::FileFormat;
use shop_jobs::{ListForm, ListOptions};
use std::alloc::{AllocError, Global};
use vol_format::{Format, Link};
use vol_layout::PlaceForm;

/// What is wanted of a file: its address, and its digest where digests are told.
#[derive(Clone, Copy)]
pub struct Wants {
    pub address: bool,
    pub digest: bool,
    pub digests: bool,
}

/// Whether places are told: in JSON alone.
pub fn wants_places(options: ListOptions) -> bool
    ensures { result ≡ wants_places options }
{
    options.places && options.form == ListForm::Json
}

// Whether an entry is that of a binary file of DOS 3.3.
fn is_binary_file<F: ShownFormat>(
    alloc: Global,
    format: &F,
    volume: &F::Volume,
    file: u32,
) -> Result<bool, AllocError>
    requires { file < entries (F.directory format.now volume.now) }
    ensures { IfOk result (λ binary. binary ≡ is_binary (F.form format.now)
        ((F.files format.now).shown {A = Global} (entry_of (F.directory format.now volume.now) file))) }
{
    match format.form() {
        PlaceForm::Sector => {
            let entry = format.list_entry(alloc, volume, file)?;
            Ok(is_binary(PlaceForm::Sector, &entry))
        }
        PlaceForm::Block => Ok(false),
    }
}

// Whether the address of a file is wanted.
fn wants_address<F: ShownFormat>(
    alloc: Global,
    format: &F,
    volume: &F::Volume,
    file: u32,
    options: ListOptions,
) -> Result<bool, AllocError>
    requires { file < entries (F.directory format.now volume.now) }
    ensures { IfOk result (λ wants. (store : List (List ℕ)) → wants ≡ wants_address
        (volume_in (F.form format.now) (F.files format.now) (F.meaning format.now)
        (F.directory format.now volume.now) store) options file) }
{
    if options.form == ListForm::Names {
        return Ok(false);
    }
    is_binary_file(alloc, format, volume, file)
}

/// What is wanted of the file of an entry.
///
/// # Errors
/// Want of memory alone.
pub fn wants_of<F: ShownFormat>(
    alloc: Global,
    format: &F,
    volume: &F::Volume,
    file: u32,
    options: ListOptions,
) -> Result<Wants, AllocError>
    requires { file < entries (F.directory format.now volume.now) }
    ensures address { IfOk result (λ wants. (store : List (List ℕ)) → wants.address ≡ wants_address
        (volume_in (F.form format.now) (F.files format.now) (F.meaning format.now)
        (F.directory format.now volume.now) store) options file) }
    ensures digest { IfOk result (λ wants. wants.digest ≡ (options.digests
        && not (is_directory (entry_of (F.directory format.now volume.now) file)))) }
    ensures digests { IfOk result (λ wants. wants.digests ≡ options.digests) }
{
    let address = wants_address(alloc, format, volume, file, options)?;
    let is_file = !matches!(format.root(volume, file), Link::Directory);
    Ok(Wants {
        address,
        digest: options.digests && is_file,
        digests: options.digests,
    })
}

/// Whether anything of a file is wanted beside its entry.
pub fn wants_any<F: ShownFormat>(format: &F, options: ListOptions) -> bool
    ensures none { reads_files options ≡ false → IsFalse result }
    ensures nothing { IsFalse result → (store : List (List ℕ)) (directory : Directory) (file : ℕ)
        → WantsNothing (volume_in (F.form format.now) (F.files format.now) (F.meaning format.now) directory store)
        options file }
{
    options.digests
        || wants_places(options)
        || (options.form != ListForm::Names && format.form() == PlaceForm::Sector)
}
