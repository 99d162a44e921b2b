// What becomes of the files of a volume that are extracted and then added.
ghost use Rattle.std.specs.Prelude.{◌≡◌, ℕ, IsTrue, List, [], Option, map};
ghost use Rattle.a2_device.specs.Device.{DeviceState};
ghost use Rattle.folder_adding.specs.AddReply.{batch_of};
ghost use Rattle.folder_adding.specs.Plan.{IsPlan, PlanView};
ghost use Rattle.folder_adding.specs.Reads.{AreGivenBack};
ghost use Rattle.folder_adding.specs.Verdicts.{AddedFolder};
ghost use Rattle.host_folders.specs.Folder.{FolderState};
ghost use Rattle.host_folders.specs.declared.entry.Naming.TheVariants.{Naps};
ghost use Rattle.pro_dir.specs.declared.date.ProDate.{ProDate};
ghost use Rattle.round_trip.specs.Extracted.{Extracted, IsExtracted, IsWhole};
ghost use Rattle.round_trip.specs.Planned.{IsDirectoryAgain, IsFormPlannedAgain, IsPlannedAgain, MayBeNew};
ghost use Rattle.round_trip.specs.Stored.{IsStoredAgain};
ghost use Rattle.round_trip.specs.Whole.{
  AreBodies,
  AreEntriesOf,
  HoldWhatWasMade,
  IsDirectoryIn,
  IsFileIn,
  IsFormIn,
  IsWholePlanned,
  MayAllBeNew,
  entry_of,
};
ghost use Rattle.shop_commands.specs.Extracting.{IsExtractTold, plan_for};
ghost use Rattle.shop_jobs.specs.declared.folders.ExtractOptions.{ExtractOptions};
ghost use Rattle.shop_jobs.specs.declared.input.VolumeOptions.{VolumeOptions};
ghost use Rattle.volume_extract.specs.Extraction.{IsExtraction};
ghost use Rattle.volume_extract.specs.Items.{made_in};

use folder_adding::an_entry_makes_one_step;

/// A law: what `extract` tells to be done, with types in names and into an empty folder that is honest, is an
/// extraction of all entries of the volume, and just what was made of these is in the folder.
pub fn what_extract_does_is_an_extraction()
    ensures { (volume : VolumeOptions) (options : ExtractOptions) (device device_now : DeviceState)
        (folder folder_now : FolderState) (status : ℕ) (text text_now : Option (List ℕ))
        → options.naming ≡ Naps → IsTrue folder.honest → folder.made ≡ []
        → IsExtraction (plan_for volume options) device device_now folder folder_now
        (IsExtractTold status text text_now)
        → (e : Extracted) × IsWhole e volume options device device_now folder_now.made }
{}

/// A law: a file that was extracted is planned as what it was, whatever else stands in its folder, or is refused for
/// its type or a name; one with the type of directories is refused as a path that says no file.
pub fn an_extracted_file_is_planned_as_it_was()
    ensures { (e : Extracted) (folder : AddedFolder) (number : ℕ) → IsExtracted e
        → folder.file_system ≡ e.volume.file_system → IsFileIn e number → IsPlannedAgain folder e number }
{}

/// A law: the readable form of a file is passed over beside it, and alone it is planned as the file.
pub fn a_readable_form_is_passed_over_or_planned()
    ensures { (e : Extracted) (folder : AddedFolder) (number : ℕ) → IsExtracted e
        → folder.file_system ≡ e.volume.file_system → IsFormIn e number → IsFormPlannedAgain folder e number }
{}

/// A law: a directory that was extracted is planned as what it was, or is refused for a name.
pub fn an_extracted_directory_is_planned_as_it_was()
    ensures { (e : Extracted) (folder : AddedFolder) (number : ℕ) → IsExtracted e
        → folder.file_system ≡ e.volume.file_system → IsDirectoryIn e number → IsDirectoryAgain folder e number }
{}

/// A law: of what an extraction made no two are one entry of a folder, so that each is one entry.
pub fn what_was_made_are_entries()
    ensures { (e : Extracted) → IsExtracted e
        → AreEntriesOf (made_in e.items) (map entry_of (made_in e.items)) }
{}

/// A law: what an extraction made, taken as the entries of a folder in any order, is planned as the files and
/// directories of the volume.
pub fn an_extraction_is_planned_as_it_was()
    ensures { (e : Extracted) (folder : AddedFolder) → IsExtracted e
        → folder.file_system ≡ e.volume.file_system → AreEntriesOf (made_in e.items) folder.entries
        → MayAllBeNew e → IsWholePlanned folder e }
{
    an_entry_makes_one_step();
}

/// A law: the files of such a plan hold the bodies of the files of the volume.
pub fn planned_files_hold_what_was_extracted()
    ensures { (e : Extracted) (folder : AddedFolder) (plan : PlanView) (contents : ℕ → List ℕ) → IsExtracted e
        → HoldWhatWasMade (made_in e.items) folder.entries contents → AreBodies folder e plan contents }
{}

/// A law: from the readable forms that such a plan passes over just the bytes of their files are taken, so that none of
/// them is refused for that.
pub fn readable_forms_give_their_files_back()
    ensures { (e : Extracted) (folder : AddedFolder) (plan : PlanView) (date : ProDate) (contents : ℕ → List ℕ)
        → IsExtracted e → folder.file_system ≡ e.volume.file_system
        → HoldWhatWasMade (made_in e.items) folder.entries contents
        → AreEntriesOf (made_in e.items) folder.entries → MayAllBeNew e → IsPlan folder plan
        → AreGivenBack (batch_of (record { folder = folder; plan = plan; date = date })) contents }
{
    an_entry_makes_one_step();
}

/// A law: the entry with which such a file is saved has the path that the file had: of DOS 3.3 its name, filled up with
/// spaces, and of ProDOS its path with the letters as capitals.
pub fn a_planned_file_is_stored_under_its_path()
    ensures { (e : Extracted) (folder : AddedFolder) (number : ℕ) → IsExtracted e
        → folder.file_system ≡ e.volume.file_system → IsFileIn e number → MayBeNew e number
        → IsStoredAgain folder e number }
{}
