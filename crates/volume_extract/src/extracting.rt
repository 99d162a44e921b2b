// All files of a volume, put into a folder.
ghost use Rattle.std.specs.Prelude.{◌≡◌, ◌<◌, ◌+◌, ◌^◌, IfErr, IfOk, IsTrue, List, MatchResult, length};
ghost use Rattle.a2_device.specs.Device.{DeviceState};
ghost use Rattle.file_cmds.specs.EachFile.{AreFilesOf};
ghost use Rattle.file_cmds.specs.ReadingOn.{ReadsOn};
ghost use Rattle.host_folders.specs.Folder.{FolderState};
ghost use Rattle.vol_format.specs.Directory.{entries};
ghost use Rattle.vol_format.specs.Fits.{Fits};
ghost use Rattle.volume_extract.specs.Extraction.{IsExtraction, IsRefused, IsStopped, plan_of};
ghost use Rattle.volume_extract.specs.Items.{Item};
ghost use Rattle.volume_extract.specs.Kept.{TellsItems};
ghost use Rattle.volume_extract.specs.Progress.{HasOneMore, HasStoppedAt, IsDone, IsExtracting};
ghost use Rattle.volume_extract.specs.Source.{contents_since, source_of};

use crate::error::ExtractError;
use crate::extraction::Extraction;
use crate::items::next_item;
use crate::names::Names;
use crate::opened::Opened;
use crate::taking::take_item;
use crate::texts::Options;
use crate::totals::Totals;
use crate::tree_format::TreeFormat;
use a2_device::Device;
use file_cmds::{VolumeFiles, read_volume};
use host_folders::Folder;
use std::alloc::Global;
use vol_format::Format;
use vol_layout::PlaceForm;

// Makes the item of the next entry.
fn extract_next<D: Device, F: TreeFormat, O: Folder>(
    alloc: Global,
    device: &mut D,
    folder: &mut O,
    told: &mut Extraction<'_, F>,
    files: &mut VolumeFiles,
    names: &mut Names,
    entry: u32,
) -> Result<(), ExtractError>
    requires fits { Fits (F.meaning told.old.opened.format.now) (D.state device.old) }
    requires places { (F.directory told.old.opened.format.now told.old.opened.volume).places
        ≡ (D.state device.old).places }
    requires entry { entry ≡ length told.old.kept.items }
    requires inside { entry < entries (F.directory told.old.opened.format.now told.old.opened.volume) }
    requires few { entry + 1 < 2 ^ 32 }
    requires opened { AreFilesOf (F.meaning told.old.opened.format.now)
        (F.directory told.old.opened.format.now told.old.opened.volume) (D.state device.old) files.old }
    requires begun { (start : DeviceState) × (before : FolderState) × (items : List Item) × IsExtracting
        (source_of told.old.opened.form told.old.opened.naming told.old.opened.texts
        (F.files told.old.opened.format.now) (F.meaning told.old.opened.format.now) (F.own told.old.opened.format.now)
        (F.directory told.old.opened.format.now told.old.opened.volume)) told.old.opened.most start
        (D.state device.old) before (O.state folder.old) items told.old.kept.items told.old.totals names.old }

    ensures reads { ReadsOn (D.state device.old) (D.state device.new) }
    ensures files { AreFilesOf (F.meaning told.old.opened.format.now)
        (F.directory told.old.opened.format.now told.old.opened.volume) (D.state device.new) files.new }
    ensures same { (O.state folder.new).honest ≡ (O.state folder.old).honest }
    ensures opened { told.new.opened ≡ told.old.opened }
    ensures next { let source = source_of told.old.opened.form told.old.opened.naming told.old.opened.texts
        (F.files told.old.opened.format.now) (F.meaning told.old.opened.format.now)
        (F.own told.old.opened.format.now) (F.directory told.old.opened.format.now told.old.opened.volume) in
        (start : DeviceState) (before : FolderState) (items : List Item)
        → IsExtracting source told.old.opened.most start (D.state device.old) before (O.state folder.old) items
        told.old.kept.items told.old.totals names.old
        → MatchResult result
        (λ _. HasOneMore source told.old.opened.most start (D.state device.new) before (O.state folder.new) items
        told.new.kept.items told.new.totals names.new)
        (IsStopped O.state O.may_fail source told.old.opened.most start
        (contents_since source start (D.state device.new)) before (O.state folder.new) items) }
{
    let next = match next_item(alloc, device, &told.opened, &told.kept, files, names, entry) {
        Ok(next) => next,
        Err(error) => return Err(error),
    };
    let most = told.opened.most;
    take_item(alloc, told, folder, &next, most)
}

// Makes the items of all entries of a volume that was read.
fn extract_read<'a, D: Device, F: TreeFormat, O: Folder>(
    alloc: Global,
    device: &mut D,
    folder: &mut O,
    opened: Opened<'a, F>,
) -> Result<Extraction<'a, F>, ExtractError>
    requires fits { Fits (F.meaning opened.format.now) (D.state device.old) }
    requires places { (F.directory opened.format.now opened.volume).places ≡ (D.state device.old).places }

    ensures reads { ReadsOn (D.state device.old) (D.state device.new) }
    ensures same { (O.state folder.new).honest ≡ (O.state folder.old).honest }
    ensures done { let source = source_of opened.entry.form opened.entry.naming opened.entry.texts
        (F.files opened.entry.format.now) (F.meaning opened.entry.format.now) (F.own opened.entry.format.now)
        (F.directory opened.entry.format.now opened.entry.volume) in
        IfOk result (λ told. IsDone source opened.entry.most (D.state device.old) (D.state device.new)
        (O.state folder.old) (O.state folder.new) (λ items. TellsItems told.opened.form (F.own told.opened.format.now)
        (F.directory told.opened.format.now told.opened.volume) told.opened.naming items told.kept.items
        told.totals)) }
    ensures stopped { let source = source_of opened.entry.form opened.entry.naming opened.entry.texts
        (F.files opened.entry.format.now) (F.meaning opened.entry.format.now) (F.own opened.entry.format.now)
        (F.directory opened.entry.format.now opened.entry.volume) in
        IfErr result (HasStoppedAt O.state O.may_fail source opened.entry.most (D.state device.old)
        (D.state device.new) (O.state folder.old) (O.state folder.new)) }
{
    let Ok(mut files) = VolumeFiles::open(alloc, device, opened.format, &opened.volume) else {
        return Err(ExtractError::Memory);
    };
    let mut names = Names::new(alloc);
    let mut told = Extraction {
        opened,
        kept: Vec::new(alloc),
        totals: Totals::none(),
    };
    for entry in 0..told.opened.format.entries(&told.opened.volume) {
        let made = extract_next(
            alloc, device, folder, &mut told, &mut files, &mut names, entry,
        );
        if let Err(error) = made {
            return Err(error);
        }
    }
    Ok(told)
}

/// Puts the files of a volume into a folder: a folder for each directory, and for each file that can be read a file,
/// its readable form beside that or in its place where these are wanted, in the order of the volume's directory.
///
/// # Errors
/// `Check` where the header, the directory or the map's pointer has a fault, and `Device` where they can't be read;
/// `TooDeep` where an entry stands in more than 64 directories or its path on the host has more than 1,024 bytes, and
/// `TooLarge` where all that is made has more bytes than it may, of the first entry of which one of these holds, and of
/// one entry `TooDeep` before `TooLarge`; `Folder` where a call of the folder fails; `Memory`. What was made before is
/// left.
pub fn extract<'a, D: Device, F: TreeFormat, O: Folder>(
    alloc: Global,
    device: &mut D,
    format: &'a F,
    form: PlaceForm,
    folder: &mut O,
    options: Options,
) -> Result<Extraction<'a, F>, ExtractError>
    requires fits { Fits (F.meaning format.now) (D.state device.old) }

    ensures reads { ReadsOn (D.state device.old) (D.state device.new) }
    ensures same { (O.state folder.new).honest ≡ (O.state folder.old).honest }
    ensures told { IfOk result (λ told. (items : List Item) × TellsItems told.opened.form
        (F.own told.opened.format.now) (F.directory told.opened.format.now told.opened.volume) told.opened.naming items
        told.kept.items told.totals) }
    ensures extracted { IsTrue (D.state device.old).honest → IfOk result (λ told. IsExtraction
        (plan_of form options (F.files format.now) (F.meaning format.now) (F.own format.now))
        (D.state device.old) (D.state device.new) (O.state folder.old) (O.state folder.new)
        (λ items. TellsItems told.opened.form (F.own told.opened.format.now)
        (F.directory told.opened.format.now told.opened.volume) told.opened.naming items told.kept.items
        told.totals)) }
    ensures refused { IsTrue (D.state device.old).honest → IfErr result (IsRefused O.state O.may_fail
        (plan_of form options (F.files format.now) (F.meaning format.now) (F.own format.now))
        (D.state device.old) (D.state device.new) (O.state folder.old) (O.state folder.new)) }
{
    let volume = read_volume(device, format)?;
    let opened = Opened {
        format,
        form,
        naming: options.naming,
        texts: options.texts_put(),
        most: options.most,
        volume,
    };
    extract_read(alloc, device, folder, opened)
}
