// The content of a volume.
ghost use Rattle.std.specs.Prelude.{◌≡◌, ◌∷◌, ◌++◌, [], IfOk, IsTrue, List, MatchOption, OnOk, Some, ℕ};
ghost use Rattle.file_cmds.specs.EachFile.{AreFilesOf};
ghost use Rattle.file_cmds.specs.ReadingOn.{ReadsOn};
ghost use Rattle.vol_format.specs.Fits.{Fits};
ghost use Rattle.volume_compare.specs.Contents.{volume_in};
ghost use Rattle.volume_compare.specs.Pairs.{paths_of};
ghost use Rattle.image_survey.specs.Content.{IsContent, most_path_bytes};
ghost use Rattle.image_survey.specs.Hashing.{IsAdded, IsFinished, IsHashed, IsHashedOf};
ghost use Rattle.image_survey.specs.Ordered.{AreInOrder, path_bytes};
ghost use Rattle.image_survey.specs.declared.file_line.FileLine.{FileLine as ALine};

use crate::file_line::{FileLine, line_of};
use crate::ordered::{Named, files_in_order};
use a2_device::Device;
use file_cmds::VolumeFiles;
use file_formats::FileFormat;
use sha2::{Digest, Sha256};
use std::alloc::{AllocError, Global};
use vol_layout::PlaceForm;

/// The most bytes that the bodies of the files of a volume may have in all.
const MOST_BYTES: u64 = 1_073_741_824;

/// The content of a volume.
#[derive(Clone, Copy)]
pub enum Content {
    /// The digest of the lines of all files, and whether each file could be read.
    Of { sha256: [u8; 32], whole: bool },
    /// The paths or the bodies of the files have too many bytes.
    TooLarge,
}

// The lines of the first files of a volume, hashed.
#[derive(Drop)]
struct Hashing {
    hasher: Sha256,
    // How many bytes the bodies of others may have.
    left: u64,
    // Whether each file could be read.
    whole: bool,
}

impl Hashing {
    // No lines.
    fn new() -> Hashing
        ensures { IsHashed result [] }
    {
        Hashing {
            hasher: Sha256::new(),
            left: MOST_BYTES,
            whole: true,
        }
    }

    // Hashes the line of one more file, and answers whether the bodies have not too many bytes then.
    fn add(&mut self, alloc: Global, told: &FileLine) -> Result<bool, AllocError>
        ensures { (lines : List ALine) → IsHashed self.old lines
            → IfOk result (IsAdded self.new (lines ++ told.now ∷ [])) }
    {
        let Some(rest) = self.left.checked_sub(told.bytes) else {
            return Ok(false);
        };
        self.left = rest;
        self.whole = self.whole && told.digest.is_some();
        let text = format!(in alloc; "{told}\n")?;
        self.hasher.update(text.as_bytes());
        Ok(true)
    }

    // What was hashed.
    fn finish(self) -> Content
        ensures { (lines : List ALine) → IsHashed self lines → IsFinished lines result }
    {
        Content::Of {
            sha256: self.hasher.finalize(),
            whole: self.whole,
        }
    }
}

// The content of files in their order.
fn hash_files<D: Device, F: FileFormat>(
    alloc: Global,
    device: &mut D,
    format: &F,
    form: PlaceForm,
    volume: &F::Volume,
    files: &mut VolumeFiles,
    order: &[Named],
) -> Result<Content, AllocError>
    requires fits { Fits (F.meaning format.now) (D.state device.old) }
    requires places { (F.directory format.now volume.now).places ≡ (D.state device.old).places }
    requires opened { AreFilesOf (F.meaning format.now) (F.directory format.now volume.now)
        (D.state device.old) files.old }
    requires honest { IsTrue (D.state device.old).honest }
    requires never { (D.state device.old).read_failures ≡ Some 0 }
    requires ordered { AreInOrder (paths_of (F.files format.now) (F.directory format.now volume.now)) order.now }

    ensures reads { ReadsOn (D.state device.old) (D.state device.new) }
    ensures content { IfOk result (IsHashedOf
        (volume_in form (F.files format.now) (F.meaning format.now) (F.directory format.now volume.now)
        (D.state device.old).store) (D.state device.old).unreadable order.now) }
{
    let mut hashing = Hashing::new();
    for named in order {
        let told = line_of(alloc, device, format, form, volume, files, named.file)?;
        if !hashing.add(alloc, &told)? {
            return Ok(Content::TooLarge);
        }
    }
    Ok(hashing.finish())
}

/// The content of a volume that was read.
///
/// # Errors
/// Want of memory alone.
pub(crate) fn content_of<D: Device, F: FileFormat>(
    alloc: Global,
    device: &mut D,
    format: &F,
    form: PlaceForm,
    volume: &F::Volume,
) -> Result<Content, AllocError>
    requires fits { Fits (F.meaning format.now) (D.state device.old) }
    requires places { (F.directory format.now volume.now).places ≡ (D.state device.old).places }
    requires honest { IsTrue (D.state device.old).honest }
    requires never { (D.state device.old).read_failures ≡ Some 0 }

    ensures reads { ReadsOn (D.state device.old) (D.state device.new) }
    ensures content { IfOk result (IsContent
        (volume_in form (F.files format.now) (F.meaning format.now) (F.directory format.now volume.now)
        (D.state device.old).store) (D.state device.old).unreadable) }
{
    let Some(order) = files_in_order(alloc, format, volume)? else {
        return Ok(Content::TooLarge);
    };
    let mut files = VolumeFiles::open(alloc, device, format, volume)?;
    hash_files(
        alloc,
        device,
        format,
        form,
        volume,
        &mut files,
        order.as_slice(),
    )
}
