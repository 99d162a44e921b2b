// What holds of the answers of a read.
ghost use Rattle.std.specs.Prelude.{◌≡◌, ℕ, Bool, List, None, slice_get};
ghost use Rattle.file_formats.specs.FileNames.{FileNameView};
ghost use Rattle.vol_format.specs.Files.{File, HasFiles};
ghost use Rattle.file_cmds.specs.FileList.{IsTextOfFirst, named_files};
ghost use Rattle.file_cmds.specs.Read.{IsTextAt, IsUnreadable, HasNoFile};

use file_formats::FileFormat;

/// The answers of a read exclude one another: a store on which a name has a text has no fault that makes the file
/// unreadable, nor is the file missing there; and a missing file is no unreadable one.
pub fn answers_exclude_one_another<F: FileFormat>(format: &F)
    ensures text_or_fault { (store : List (List ℕ)) (name : FileNameView) (whole : Bool) (text : List ℕ)
        → IsTextAt (F.meaning format.now) (F.files format.now) store name whole text
        → IsUnreadable (F.meaning format.now) (F.files format.now) store name → ⊥ }
    ensures text_or_none { (store : List (List ℕ)) (name : FileNameView) (whole : Bool) (text : List ℕ)
        → IsTextAt (F.meaning format.now) (F.files format.now) store name whole text
        → HasNoFile (F.meaning format.now) (F.files format.now) store name → ⊥ }
    ensures fault_or_none { (store : List (List ℕ)) (name : FileNameView)
        → IsUnreadable (F.meaning format.now) (F.files format.now) store name
        → HasNoFile (F.meaning format.now) (F.files format.now) store name → ⊥ }
{}

/// What a read of an accepted volume answers is told by the list of the volume's files: the text of the first file of
/// the list with the name; that there is none, where none of the list has the name; and never that the volume
/// or the file is unreadable.
pub fn a_read_answers_by_the_list_of_files<F: FileFormat>(format: &F)
    ensures text { (store : List (List ℕ)) (files : List File) (name : FileNameView) (whole : Bool) (text : List ℕ)
        → HasFiles (F.meaning format.now) store files
        → IsTextAt (F.meaning format.now) (F.files format.now) store name whole text
        → IsTextOfFirst (F.files format.now) (F.meaning format.now).unit_size files name whole text }
    ensures none { (store : List (List ℕ)) (files : List File) (name : FileNameView)
        → HasFiles (F.meaning format.now) store files → HasNoFile (F.meaning format.now) (F.files format.now) store name
        → slice_get (named_files (F.files format.now) name files) 0 ≡ None }
    ensures readable { (store : List (List ℕ)) (files : List File) (name : FileNameView)
        → HasFiles (F.meaning format.now) store files
        → IsUnreadable (F.meaning format.now) (F.files format.now) store name → ⊥ }
{}
