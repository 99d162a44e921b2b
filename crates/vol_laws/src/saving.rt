// What the writes that save a file leave.
ghost use Rattle.std.specs.Prelude.{◌≡◌, ◌<◌, ◌≤◌, ◌+◌, ℕ, false, List, length, map, take};
ghost use Rattle.a2_device.specs.Device.{unit_at};
ghost use Rattle.vol_format.specs.Accepted.{IsAccepted};
ghost use Rattle.vol_format.specs.Directory.{Directory, Listed};
ghost use Rattle.vol_format.specs.Files.{File};
ghost use Rattle.vol_laws.specs.Built.{Planned, IsBodyOf};
ghost use Rattle.vol_laws.specs.EditLaws.{IsFileFree};
ghost use Rattle.vol_laws.specs.Kept.{IsKept};
ghost use Rattle.vol_laws.specs.Marked.{marked};
ghost use Rattle.vol_laws.specs.Markings.{Marking, all_marks};
ghost use Rattle.vol_laws.specs.Writes.{Write, store_after};
ghost use Rattle.vol_laws.specs.Saved.{HasFileSaved, HasNothingSaved};
ghost use Rattle.vol_laws.specs.Saving.{IsPlacing, IsSaving, places_of, with_places};

use vol_format::WritableFormat;

/// A law: once the units of a plan stand at new places and these are marked used, the volume is accepted and has the
/// files that it had.
pub fn placed_units_keep_the_files<F: WritableFormat>(format: &F)
    ensures { (few : Directory) (planned : List Planned) (store : List (List ℕ)) (markings : List Marking)
        → IsAccepted (F.meaning format.now) few store
        → ((place : ℕ) → place < length store → length (unit_at store place) ≡ (F.meaning format.now).unit_size)
        → IsPlacing few planned markings
        → IsKept (F.meaning format.now) few (marked few (all_marks false markings)) store
        (with_places (F.meaning format.now) store planned markings) }
{}

/// A law: as long as the entry of a file that is saved has not been written, the volume is accepted and has the files
/// that it had, and a place that is lost then was lost before or is one of the new file's.
pub fn a_saving_stopped_before_its_entry_keeps_the_files<F: WritableFormat>(format: &F)
    ensures { (few : Directory) (at : ℕ) (entry : Listed) (planned : List Planned) (store : List (List ℕ))
        (writes : List Write) (made : ℕ)
        → IsAccepted (F.meaning format.now) few store
        → ((place : ℕ) → place < length store → length (unit_at store place) ≡ (F.meaning format.now).unit_size)
        → (saving : IsSaving (F.meaning format.now) few at entry planned store writes)
        → made + length saving.system ≤ length writes
        → HasNothingSaved (F.meaning format.now) (places_of planned) store (store_after (take made writes) store) }
{}

/// A law: once the entry of a file that is saved is written, the volume is accepted and has that file and the others,
/// and the same places are lost as before.
pub fn a_saving_enters_one_file<F: WritableFormat>(format: &F)
    ensures { IsFileFree (F.meaning format.now)
        → (few : Directory) (at : ℕ) (entry : Listed) (planned : List Planned) (store : List (List ℕ))
        (writes : List Write) (made : ℕ) (file : File)
        → IsAccepted (F.meaning format.now) few store
        → ((place : ℕ) → place < length store → length (unit_at store place) ≡ (F.meaning format.now).unit_size)
        → (saving : IsSaving (F.meaning format.now) few at entry planned store writes)
        → file.path ≡ entry.path → file.bytes ≡ entry.bytes → IsBodyOf planned file.body
        → length writes < made + length saving.system → made ≤ length writes
        → HasFileSaved (F.meaning format.now) few at file store (store_after (take made writes) store) }
{}
