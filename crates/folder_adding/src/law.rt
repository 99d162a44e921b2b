// What always holds of files that are saved one after the other, and of the entries of a folder.
ghost use Rattle.folder_adding.specs.Directories.{KeepFiles};
ghost use Rattle.folder_adding.specs.Entered.{AreEnteredInTurn};
ghost use Rattle.folder_adding.specs.HostEntries.{EntryView};
ghost use Rattle.folder_adding.specs.Listed.{IsToldAsListed};
ghost use Rattle.folder_adding.specs.OneVerdict.{HasOneVerdict};
ghost use Rattle.folder_adding.specs.Passed.{PassesSeconds};
ghost use Rattle.folder_adding.specs.Plan.{IsPlan, PlanView};
ghost use Rattle.folder_adding.specs.Verdicts.{AddedFolder};

use edit_formats::SavableFormat;
use file_edits::DirectoryFormat;

/// A law: files that were saved to an accepted volume one after the other are entered in the list of its files in turn,
/// the volume stays accepted, and the same places are lost.
pub fn added_files_are_entered<F: SavableFormat>(format: &F)
    ensures { AreEnteredInTurn (F.saves format.now) (F.meaning format.now) }
{}

/// A law: directories that are kept on an accepted volume, each made where none was there, leave it accepted, with the
/// files of before, and the same places are lost.
pub fn directories_keep_the_files<F: DirectoryFormat>(format: &F)
    ensures { KeepFiles (F.directories format.now) (F.meaning format.now) }
{}

/// A law: the path that is told of a file that was saved is the one under which a listing shows it.
pub fn a_saved_file_is_told_as_it_is_listed()
    ensures { IsToldAsListed }
{}

/// A law: an entry of a folder makes one step at most, is refused for one cause at most, and never both.
pub fn an_entry_makes_one_step()
    ensures { (folder : AddedFolder) (entry : EntryView) → HasOneVerdict folder entry }
{}

/// A law: an entry that a plan passes over is the readable form beside the file of an item, or has the path of that.
pub fn what_is_passed_over_stands_beside_an_item()
    ensures { (folder : AddedFolder) (plan : PlanView) → IsPlan folder plan → PassesSeconds folder plan }
{}
