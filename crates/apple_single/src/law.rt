// What always holds of AppleSingle files.
ghost use Rattle.std.specs.Prelude.{ℕ, List, Option};
ghost use Rattle.apple_single.specs.declared.single.FileInfo.{FileInfo};
ghost use Rattle.apple_single.specs.Laws.{AreOne, IsReadBack};

/// What is printed is read back, where its numbers fit.
pub fn what_is_printed_is_read()
    ensures { (name fork : List ℕ) (info : FileInfo) → IsReadBack name info fork }
{}

/// A file says one thing at most.
pub fn a_file_says_one_thing()
    ensures { (file fork fork' : List ℕ) (info other : Option FileInfo) → AreOne file info other fork fork' }
{}
