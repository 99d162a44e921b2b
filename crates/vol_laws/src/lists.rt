// What one entry of a directory, entered, taken out or rewritten, does to the list of the files.
ghost use Rattle.std.specs.Prelude.{◌≡◌, ◌↔◌, ◌<◌, ◌≤◌, ℕ, false, List, length, slice_index_or};
ghost use Rattle.vol_format.specs.Accepted.{IsAccepted};
ghost use Rattle.vol_format.specs.Directory.{Directory, Listed, entries, entry_of, no_entry, is_directory, files};
ghost use Rattle.vol_format.specs.Files.{File, IsFile, IsFiles, HasFiles, file_numbers};
ghost use Rattle.vol_laws.specs.EditLaws.{IsFileFree};
ghost use Rattle.vol_laws.specs.Entered.{HasSameRest, IsNewFile};
ghost use Rattle.vol_laws.specs.FilesOf.{IsFileOf, rewritten_files};
ghost use Rattle.vol_laws.specs.Inserted.{inserted, insert_at, rewritten, files_before};
ghost use Rattle.vol_laws.specs.Rewritten.{HasRewritten};

use vol_format::WritableFormat;

/// A law: the file that has the number of an entry is the file that the entry says and points to.
pub fn a_file_is_that_of_its_entry<F: WritableFormat>(format: &F)
    ensures { (directory : Directory) (store : List (List ℕ)) (entry : ℕ) (file : File)
        → (F.meaning format.now).Describes store directory → entry < entries directory
        → IsFile (F.meaning format.now) directory store entry file
        ↔ IsFileOf (F.meaning format.now) store (entry_of directory entry) file }
{}

/// A law: the index of a file's entry among the entries that are files' is how many of these stand before it, and so is
/// the index of its number among their numbers.
pub fn a_file_has_its_index_among_the_files()
    ensures entry { (directory : Directory) (file : ℕ) → file < entries directory
        → is_directory (entry_of directory file) ≡ false
        → (files_before directory file < length (files directory))
        × (slice_index_or (files directory) (files_before directory file) no_entry ≡ entry_of directory file) }
    ensures number { (directory : Directory) (file : ℕ) → file < entries directory
        → is_directory (entry_of directory file) ≡ false
        → (files_before directory file < length (file_numbers directory))
        × (slice_index_or (file_numbers directory) (files_before directory file) 0 ≡ file) }
{}

/// A law: a file's entry that is entered makes the list of files the list before with that file in its place; taken
/// out, it makes it the list without that file.
pub fn an_entry_is_one_file_more<F: WritableFormat>(format: &F)
    ensures enters { IsFileFree (F.meaning format.now)
        → (few : Directory) (at : ℕ) (entry : Listed) (old new : List (List ℕ)) (file : File) (others : List File)
        → at ≤ entries few → is_directory entry ≡ false → IsAccepted (F.meaning format.now) few old
        → HasSameRest few old new
        → (F.meaning format.now).Describes new (inserted few at entry)
        → IsFileOf (F.meaning format.now) new entry file → IsFiles (F.meaning format.now) few old others
        → IsFiles (F.meaning format.now) (inserted few at entry) new (insert_at (files_before few at) file others) }
    ensures leaves { IsFileFree (F.meaning format.now)
        → (few : Directory) (at : ℕ) (entry : Listed) (old new : List (List ℕ)) (all : List File)
        → at ≤ entries few → is_directory entry ≡ false → (F.meaning format.now).Takes few.places
        → IsAccepted (F.meaning format.now) (inserted few at entry) old → HasSameRest few old new
        → (F.meaning format.now).Describes new few
        → IsFiles (F.meaning format.now) (inserted few at entry) old all
        → (file : File) × (others : List File) × (all ≡ insert_at (files_before few at) file others)
        × IsFileOf (F.meaning format.now) old entry file × IsFiles (F.meaning format.now) few new others }
    ensures gains { IsFileFree (F.meaning format.now)
        → (few : Directory) (at : ℕ) (entry : Listed) (old new : List (List ℕ)) (file : File) (others : List File)
        → at ≤ entries few → is_directory entry ≡ false → IsAccepted (F.meaning format.now) few old
        → HasSameRest few old new
        → (F.meaning format.now).Describes new (inserted few at entry)
        → IsNewFile (F.meaning format.now) few old new entry.root → IsFileOf (F.meaning format.now) new entry file
        → HasFiles (F.meaning format.now) old others
        → HasFiles (F.meaning format.now) new (insert_at (files_before few at) file others) }
    ensures loses { IsFileFree (F.meaning format.now)
        → (few : Directory) (at : ℕ) (entry : Listed) (old new : List (List ℕ)) (all : List File)
        → at ≤ entries few → is_directory entry ≡ false → (F.meaning format.now).Takes few.places
        → IsAccepted (F.meaning format.now) (inserted few at entry) old → HasSameRest few old new
        → (F.meaning format.now).Describes new few
        → HasFiles (F.meaning format.now) old all
        → (file : File) × (others : List File) × (all ≡ insert_at (files_before few at) file others)
        × IsFileOf (F.meaning format.now) old entry file × HasFiles (F.meaning format.now) new others }
{}

/// A law: an entry under another path or with other bytes keeps the parts of all files, and the list of files is the
/// same but for this one's path and bytes.
pub fn a_rewritten_entry_keeps_the_others<F: WritableFormat>(format: &F)
    ensures parts { (directory : Directory) (old new : List (List ℕ)) (file : ℕ) (path bytes : List ℕ)
        → file < entries directory → IsAccepted (F.meaning format.now) directory old → HasSameRest directory old new
        → (F.meaning format.now).Describes new (rewritten directory file path bytes)
        → HasRewritten (F.meaning format.now) directory (rewritten directory file path bytes) old new }
    ensures files { (directory : Directory) (old new : List (List ℕ)) (file : ℕ) (path bytes : List ℕ) (all : List File)
        → file < entries directory → is_directory (entry_of directory file) ≡ false
        → IsAccepted (F.meaning format.now) directory old → HasSameRest directory old new
        → (F.meaning format.now).Describes new (rewritten directory file path bytes)
        → IsFiles (F.meaning format.now) directory old all
        → IsFiles (F.meaning format.now) (rewritten directory file path bytes) new
        (rewritten_files all (files_before directory file) path bytes) }
    ensures list { (directory : Directory) (old new : List (List ℕ)) (file : ℕ) (path bytes : List ℕ) (all : List File)
        → file < entries directory → is_directory (entry_of directory file) ≡ false
        → IsAccepted (F.meaning format.now) directory old → HasSameRest directory old new
        → (F.meaning format.now).Describes new (rewritten directory file path bytes)
        → HasFiles (F.meaning format.now) old all
        → HasFiles (F.meaning format.now) new (rewritten_files all (files_before directory file) path bytes) }
{}
