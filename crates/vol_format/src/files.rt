// The list of the files of a volume.
ghost use Rattle.std.specs.Prelude.{◌≡◌, ◌↔◌, ℕ, List, length, map};
ghost use Rattle.vol_format.specs.Accepted.{IsAccepted, IsVolume};
ghost use Rattle.vol_format.specs.Directory.{Directory, Listed, entry_of, files};
ghost use Rattle.vol_format.specs.Reach.{IsPartsOf};
ghost use Rattle.vol_format.specs.Files.{File, HasFiles, IsFiles, KeepsFiles, file_numbers};

use crate::{Format, WritableFormat};
use a2_device::Part;

/// A law: a store has one list of files at most.
pub fn a_store_has_one_list_of_files<F: Format>(format: &F)
    ensures { (store : List (List ℕ)) (files others : List File)
        → HasFiles (F.meaning format.now) store files → HasFiles (F.meaning format.now) store others
        → files ≡ others }
{}

/// A law: a volume whose parts are known has its list of files.
pub fn a_volume_has_its_files<F: Format>(format: &F)
    ensures { (directory : Directory) (store : List (List ℕ)) (parts : List Part)
        → IsAccepted (F.meaning format.now) directory store → IsPartsOf (F.meaning format.now) directory store parts
        → (files : List File) × HasFiles (F.meaning format.now) store files }
{}

/// A law: the numbers of the entries that are files' give those entries in directory order, and each of them has its
/// file, with its path and its bytes.
pub fn the_files_are_those_of_the_entries<F: Format>(format: &F)
    ensures numbers { (directory : Directory) → map (entry_of directory) (file_numbers directory) ≡ files directory }
    ensures count { (directory : Directory) (store : List (List ℕ)) (all : List File)
        → IsFiles (F.meaning format.now) directory store all
        → length all ≡ length (files directory) }
    ensures paths { (directory : Directory) (store : List (List ℕ)) (all : List File)
        → IsFiles (F.meaning format.now) directory store all
        → map (λ (file : File). file.path) all ≡ map (λ (entry : Listed). entry.path) (files directory) }
    ensures bytes { (directory : Directory) (store : List (List ℕ)) (all : List File)
        → IsFiles (F.meaning format.now) directory store all
        → map (λ (file : File). file.bytes) all ≡ map (λ (entry : Listed). entry.bytes) (files directory) }
{}

/// A law: two volumes whose files have the same contents, with directories that differ at most in where entries point
/// to and in what is marked free, have the same list of files.
pub fn same_contents_are_the_same_files<F: WritableFormat>(format: &F)
    ensures { (old new : List (List ℕ)) → KeepsFiles (F.meaning format.now) old new
        → IsVolume (F.meaning format.now) old → IsVolume (F.meaning format.now) new
        → (files : List File) → HasFiles (F.meaning format.now) old files ↔ HasFiles (F.meaning format.now) new files }
{}
