// What holds of the answers of a command that changes a file.
ghost use Rattle.std.specs.Prelude.{◌≡◌, ℕ, List, Result};
ghost use Rattle.file_formats.specs.FileNames.{FileNameView};
ghost use Rattle.file_edits.specs.Answers.{IsDeleteAnswer, IsRenameAnswer};

use edit_formats::{EditError, EditableFormat};

/// A law: a volume has one answer to a name and a new one. So where memory is there and no call of the device fails, a
/// file is renamed exactly where no cause stands in the way, and each cause is told exactly where it is the first.
pub fn a_rename_has_one_answer<F: EditableFormat>(format: &F)
    ensures { (store : List (List ℕ)) (name : FileNameView) (new : List ℕ) (one other : Result (Unit {0}) EditError)
        → IsRenameAnswer (F.meaning format.now) (F.files format.now) (F.names format.now) store name new one
        → IsRenameAnswer (F.meaning format.now) (F.files format.now) (F.names format.now) store name new other
        → one ≡ other }
{}

/// A law: a volume has one answer to the name of a file that is to be deleted.
pub fn a_deletion_has_one_answer<F: EditableFormat>(format: &F)
    ensures { (store : List (List ℕ)) (name : FileNameView) (one other : Result (Unit {0}) EditError)
        → IsDeleteAnswer (F.meaning format.now) (F.files format.now) (F.erasures format.now) store name one
        → IsDeleteAnswer (F.meaning format.now) (F.files format.now) (F.erasures format.now) store name other
        → one ≡ other }
{}
