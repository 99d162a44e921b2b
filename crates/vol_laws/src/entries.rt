// What one entry of a directory, entered or taken out, does to the parts of the files.
ghost use Rattle.std.specs.Prelude.{◌≡◌, ◌↔◌, ◌<◌, ◌≤◌, ◌+◌, ℕ, true, List, slice_set};
ghost use Rattle.vol_format.specs.Accepted.{IsAccepted};
ghost use Rattle.vol_format.specs.Directory.{Directory, Listed, entries, entry_of, root_of, is_system};
ghost use Rattle.vol_format.specs.Reach.{Reach};
ghost use Rattle.vol_laws.specs.Kept.{IsKept};
ghost use Rattle.vol_laws.specs.EditLaws.{IsFileFree};
ghost use Rattle.vol_laws.specs.Entered.{HasSameRest, IsNewFile, HasEntered, HasLeft};
ghost use Rattle.vol_laws.specs.Inserted.{inserted, files_before};
ghost use Rattle.vol_laws.specs.PartsOf.{PartOf};

use a2_device::Part;
use vol_format::WritableFormat;

/// A law: an entry entered makes the files those before and one more; taken out, it leaves the others.
pub fn an_entry_renumbers_the_files<F: WritableFormat>(format: &F)
    ensures enters { IsFileFree (F.meaning format.now)
        → (few : Directory) (at : ℕ) (entry : Listed) (old new : List (List ℕ))
        → at ≤ entries few → IsAccepted (F.meaning format.now) few old → HasSameRest few old new
        → (F.meaning format.now).Describes new (inserted few at entry)
        → IsNewFile (F.meaning format.now) few old new entry.root
        → HasEntered (F.meaning format.now) few at entry old new }
    ensures leaves { IsFileFree (F.meaning format.now)
        → (few : Directory) (at : ℕ) (entry : Listed) (old new : List (List ℕ))
        → at ≤ entries few → (F.meaning format.now).Takes few.places
        → IsAccepted (F.meaning format.now) (inserted few at entry) old → HasSameRest few old new
        → (F.meaning format.now).Describes new few
        → HasLeft (F.meaning format.now) few at entry old new }
{}

/// A law: a write to units of the system that leaves what they say keeps the files.
pub fn a_system_write_keeps_the_files<F: WritableFormat>(format: &F)
    ensures { (directory : Directory) (old new : List (List ℕ))
        → IsAccepted (F.meaning format.now) directory old → HasSameRest directory old new
        → (F.meaning format.now).Describes new directory
        → IsKept (F.meaning format.now) directory directory old new }
{}

/// A law: one unit of the system written leaves all units outside the system.
pub fn a_unit_of_the_system_leaves_the_rest()
    ensures { (directory : Directory) (store : List (List ℕ)) (place : ℕ) (unit : List ℕ)
        → is_system directory place ≡ true
        → HasSameRest directory store (slice_set store place unit) }
{}

/// A law: an entry has the number at which it was entered, and as many files' entries stand before it as before.
pub fn an_entry_has_the_number_it_was_entered_at()
    ensures entry { (few : Directory) (at : ℕ) (entry : Listed) → at ≤ entries few
        → entry_of (inserted few at entry) at ≡ entry }
    ensures count { (few : Directory) (at : ℕ) (entry : Listed) → at ≤ entries few
        → entries (inserted few at entry) ≡ entries few + 1 }
    ensures files { (few : Directory) (at : ℕ) (entry : Listed) → at ≤ entries few
        → files_before (inserted few at entry) at ≡ files_before few at }
{}

/// A law: what an entry leads to are the parts of the volume that have its number.
pub fn the_parts_of_an_entry_have_its_number<F: WritableFormat>(format: &F)
    ensures { (directory : Directory) (store : List (List ℕ)) (file : ℕ) (part : Part)
        → (F.meaning format.now).Describes store directory → file < entries directory
        → PartOf (F.meaning format.now) store (root_of directory file) part
        ↔ (Reach (F.meaning format.now) directory store part × (part.file ≡ file)) }
{}
