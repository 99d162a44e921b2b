// What the writes that delete a file leave.
ghost use Rattle.std.specs.Prelude.{◌≡◌, ◌<◌, ◌≤◌, ℕ, Bool, List, length, take};
ghost use Rattle.a2_device.specs.Device.{unit_at};
ghost use Rattle.vol_format.specs.Accepted.{IsAccepted};
ghost use Rattle.vol_format.specs.Directory.{Directory};
ghost use Rattle.vol_laws.specs.EditLaws.{IsFileFree};
ghost use Rattle.vol_laws.specs.Deleted.{HasEntryErased, HasFileDeleted};
ghost use Rattle.vol_laws.specs.Deletion.{IsDeletion};
ghost use Rattle.vol_laws.specs.Lists.{IsFirst};
ghost use Rattle.vol_laws.specs.Writes.{Write, store_after};

use vol_format::WritableFormat;

/// A law: once some of the writes that delete a file stand, the first of them among these, the volume is accepted and
/// has the other files, and a place that is lost then was lost before or is one of the file's.
pub fn a_deletion_stopped_takes_out_one_file<F: WritableFormat>(format: &F)
    ensures { IsFileFree (F.meaning format.now)
        → (is_named : List ℕ → Bool) (directory : Directory) (file : ℕ) (store : List (List ℕ)) (writes : List Write)
        (made : ℕ)
        → IsAccepted (F.meaning format.now) directory store
        → ((place : ℕ) → place < length store → length (unit_at store place) ≡ (F.meaning format.now).unit_size)
        → IsFirst is_named directory file → IsDeletion (F.meaning format.now) directory file store writes
        → 0 < made → made ≤ length writes
        → HasEntryErased (F.meaning format.now) is_named directory file store (store_after (take made writes) store) }
{}

/// A law: once all the writes that delete a file stand, the volume is accepted and has the other files, and the same
/// places are lost as before.
pub fn a_deletion_takes_out_one_file<F: WritableFormat>(format: &F)
    ensures { IsFileFree (F.meaning format.now)
        → (is_named : List ℕ → Bool) (directory : Directory) (file : ℕ) (store : List (List ℕ)) (writes : List Write)
        → IsAccepted (F.meaning format.now) directory store
        → ((place : ℕ) → place < length store → length (unit_at store place) ≡ (F.meaning format.now).unit_size)
        → IsFirst is_named directory file → IsDeletion (F.meaning format.now) directory file store writes
        → HasFileDeleted (F.meaning format.now) is_named store (store_after writes store) }
{}
