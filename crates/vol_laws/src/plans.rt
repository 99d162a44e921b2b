// What the units that are planned and built for a new file mean, and what writing them does.
ghost use Rattle.std.specs.Prelude.{◌≡◌, ◌≢◌, ◌↔◌, ◌<◌, ◌≤◌, ℕ, List, length};
ghost use Rattle.vol_format.specs.Accepted.{IsAccepted};
ghost use Rattle.vol_format.specs.Directory.{Directory, Listed, entries};
ghost use Rattle.vol_format.specs.Standing.{IsLost};
ghost use Rattle.vol_format.specs.declared.link.Link.{Link};
ghost use Rattle.vol_format.specs.Files.{File, HasFiles, Stored};
ghost use Rattle.vol_laws.specs.Kept.{IsKept};
ghost use Rattle.vol_laws.specs.Built.{
  Planned,
  IsBuilt,
  AreHeld,
  AreLost,
  ArePlanned,
  HasPlacesOnce,
  HasPlanWritten,
  IsBodyOf,
  IsPlannedFile,
  IsRisingPlan,
  body_of,
  place_of,
  plan_in_file,
  written,
};
ghost use Rattle.vol_laws.specs.EditLaws.{IsFileFree};
ghost use Rattle.vol_laws.specs.Entered.{HasSameRest, IsNewFile, HasEntered};
ghost use Rattle.vol_laws.specs.FilesOf.{IsFileOf};
ghost use Rattle.vol_laws.specs.Inserted.{inserted, insert_at, files_before, refiled};

use vol_format::WritableFormat;

/// A law: the units of a plan, held at lost places, are the parts of a new file with the plan's body, and there are no
/// others.
pub fn a_built_file_is_new<F: WritableFormat>(format: &F)
    ensures { (directory : Directory) (old new : List (List ℕ)) (planned : List Planned) (entry : Listed) (file : File)
        → IsAccepted (F.meaning format.now) directory old
        → IsBuilt (F.meaning format.now) (length new) planned entry.root
        → AreHeld new planned → AreLost (F.meaning format.now) directory old planned
        → file.path ≡ entry.path → file.bytes ≡ entry.bytes → IsBodyOf planned file.body
        → ArePlanned (F.meaning format.now) new planned entry.root
        × IsNewFile (F.meaning format.now) directory old new entry.root
        × IsFileOf (F.meaning format.now) new entry file }
{}

/// A law: the units of a plan written to lost places keep the files; the places stay lost, and the plan is held.
pub fn a_written_plan_keeps_the_files<F: WritableFormat>(format: &F)
    ensures keeps { (directory : Directory) (store : List (List ℕ)) (planned : List Planned)
        → IsAccepted (F.meaning format.now) directory store → AreLost (F.meaning format.now) directory store planned
        → IsKept (F.meaning format.now) directory directory store (written store planned) }
    ensures lost { (directory : Directory) (store : List (List ℕ)) (planned : List Planned)
        → IsAccepted (F.meaning format.now) directory store → AreLost (F.meaning format.now) directory store planned
        → AreLost (F.meaning format.now) directory (written store planned) planned }
    ensures held { (directory : Directory) (store : List (List ℕ)) (planned : List Planned)
        → IsAccepted (F.meaning format.now) directory store → AreLost (F.meaning format.now) directory store planned
        → HasPlacesOnce planned → AreHeld (written store planned) planned }
{}

/// A law: the units of a plan may be written in any order.
pub fn a_plan_is_written_in_any_order()
    ensures { (planned : List Planned) (old new : List (List ℕ)) → HasPlanWritten planned old new
        → new ≡ written old planned }
{}

/// A law: a plan that is held at lost places is held after a write to units of the system, as the entering of its entry
/// is.
pub fn a_held_plan_stays_held<F: WritableFormat>(format: &F)
    ensures { (directory : Directory) (old new : List (List ℕ)) (planned : List Planned)
        → IsAccepted (F.meaning format.now) directory old → AreLost (F.meaning format.now) directory old planned
        → HasSameRest directory old new → AreHeld old planned
        → AreHeld new planned }
{}

/// A law: a plan in which the numbers of the body rise has its body.
pub fn a_rising_plan_has_its_body()
    ensures { (planned : List Planned) → IsRisingPlan planned → IsBodyOf planned (body_of planned) }
{}

/// A law: a plan is one for a file of any number.
pub fn a_plan_is_for_a_file_of_any_number<F: WritableFormat>(format: &F)
    ensures built { IsFileFree (F.meaning format.now)
        → (places file : ℕ) (planned : List Planned) (root : Link) → IsBuilt (F.meaning format.now) places planned root
        → IsBuilt (F.meaning format.now) places (plan_in_file planned file) (refiled file root) }
    ensures held { (store : List (List ℕ)) (planned : List Planned) (file : ℕ) → AreHeld store planned
        → AreHeld store (plan_in_file planned file) }
    ensures lost { (directory : Directory) (store : List (List ℕ)) (planned : List Planned) (file : ℕ)
        → AreLost (F.meaning format.now) directory store planned
        → AreLost (F.meaning format.now) directory store (plan_in_file planned file) }
    ensures body { (planned : List Planned) (file : ℕ) (body : List Stored) → IsBodyOf planned body
        → IsBodyOf (plan_in_file planned file) body }
{}

/// A law: once the entry of a planned file is entered, the volume has that file and the others, and of the places that
/// were lost those of the plan are so no longer.
pub fn a_planned_file_is_entered<F: WritableFormat>(format: &F)
    ensures parts { IsFileFree (F.meaning format.now)
        → (few : Directory) (at : ℕ) (entry : Listed) (old new : List (List ℕ)) (planned : List Planned) (file : File)
        → at ≤ entries few → IsAccepted (F.meaning format.now) few old → HasSameRest few old new
        → (F.meaning format.now).Describes new (inserted few at entry)
        → IsPlannedFile (F.meaning format.now) few old planned entry file
        → HasEntered (F.meaning format.now) few at entry old new }
    ensures list { IsFileFree (F.meaning format.now)
        → (few : Directory) (at : ℕ) (entry : Listed) (old new : List (List ℕ)) (planned : List Planned) (file : File)
        (others : List File)
        → at ≤ entries few → IsAccepted (F.meaning format.now) few old → HasSameRest few old new
        → (F.meaning format.now).Describes new (inserted few at entry)
        → IsPlannedFile (F.meaning format.now) few old planned entry file
        → HasFiles (F.meaning format.now) old others
        → HasFiles (F.meaning format.now) new (insert_at (files_before few at) file others) }
    ensures lost { IsFileFree (F.meaning format.now)
        → (few : Directory) (at : ℕ) (entry : Listed) (old new : List (List ℕ)) (planned : List Planned) (file : File)
        (place : ℕ)
        → at ≤ entries few → IsAccepted (F.meaning format.now) few old → HasSameRest few old new
        → (F.meaning format.now).Describes new (inserted few at entry)
        → IsPlannedFile (F.meaning format.now) few old planned entry file
        → IsLost (F.meaning format.now) (inserted few at entry) new place
        ↔ (IsLost (F.meaning format.now) few old place × ((k : ℕ) → k < length planned → place_of planned k ≢ place)) }
{}
