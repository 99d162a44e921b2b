// What is read of an index where a pointer was written, and which parts a file has. Each law is a function with
// nothing to do: its contract is the law.
ghost use Rattle.std.specs.Prelude.{◌≡◌, ◌≢◌, ◌<◌, ◌↔◌, ℕ, List, length};
ghost use Rattle.a2_device.specs.declared.part.Part.{Part};
ghost use Rattle.pro_tree.specs.File.{InFile, PlacedAt};
ghost use Rattle.pro_tree.specs.Pointers.{pointer_of, with_pointer};

/// The pointer that was written has the number of the block.
pub fn set_pointer_is_read()
    ensures { (unit : List ℕ) (number block : ℕ) → length unit ≡ 512 → number < 256
        → pointer_of (with_pointer number block unit) number ≡ block }
{}

/// The other pointers have the numbers that they had, and the block its size.
pub fn set_pointer_keeps_others()
    ensures others { (unit : List ℕ) (number other block : ℕ) → number < 256 → other < 256 → other ≢ number
        → pointer_of (with_pointer number block unit) other ≡ pointer_of unit other }
    ensures size { (unit : List ℕ) (number block : ℕ) → length (with_pointer number block unit) ≡ length unit }
{}

/// What pointers lead to from the key pointer of a file are the parts that a file of its storage type has.
pub fn parts_of_a_file()
    ensures { (store : List (List ℕ)) (file storage key : ℕ) (part : Part)
        → InFile store file storage key part
        ↔ ((part.file ≡ file) × PlacedAt store storage key part.kind part.number part.place) }
{}
