// Where the parts stand after a write that keeps them, and which places are lost after each write.
ghost use Rattle.std.specs.Prelude.{◌≡◌, ◌≢◌, ◌⊎◌, ◌↔◌, ◌<◌, ℕ, true, false, List, length, Contains};
ghost use Rattle.vol_format.specs.Accepted.{IsAccepted};
ghost use Rattle.vol_format.specs.Directory.{Directory, is_free, remapped};
ghost use Rattle.vol_format.specs.Standing.{Stands, IsLost};
ghost use Rattle.vol_laws.specs.Kept.{IsKept, IsUnreached};
ghost use Rattle.vol_laws.specs.Moved.{IsReady, pointed, pointed_store};

use a2_device::Part;
use vol_format::{Holder, WritableFormat};

/// A law: after a write that keeps the files the parts stand where they stood, and the places are lost that are
/// available, marked used then, and no part's.
pub fn kept_files_stand_where_they_stood<F: WritableFormat>(format: &F)
    ensures layout { (before after : Directory) (old new : List (List ℕ)) (parts : List Part) (layout : List ℕ)
        → IsKept (F.meaning format.now) before after old new
        → Stands (F.meaning format.now) before old parts layout → Stands (F.meaning format.now) after new parts layout }
    ensures lost { (before after : Directory) (old new : List (List ℕ)) (place : ℕ)
        → IsKept (F.meaning format.now) before after old new
        → IsLost (F.meaning format.now) after new place
        ↔ (Contains before.available place × (is_free after place ≡ false)
        × IsUnreached (F.meaning format.now) before old place) }
{}

/// A law: a copy to a place that no part has leaves what is lost.
pub fn a_copy_loses_nothing<F: WritableFormat>(format: &F)
    ensures { (directory : Directory) (old new : List (List ℕ)) (place : ℕ)
        → IsKept (F.meaning format.now) directory directory old new
        → IsLost (F.meaning format.now) directory new place ↔ IsLost (F.meaning format.now) directory old place }
{}

/// A law: after a move the place that the part has left is lost, and the one that it has come to no longer.
pub fn a_moved_part_leaves_its_place<F: WritableFormat>(format: &F)
    ensures { (directory : Directory) (store : List (List ℕ)) (part : Part) (holder : Holder) (place at : ℕ)
        → IsAccepted (F.meaning format.now) directory store → (F.meaning format.now).Takes directory.places
        → IsReady (F.meaning format.now) directory store part holder place
        → IsLost (F.meaning format.now) (pointed directory part holder place)
        (pointed_store (F.meaning format.now) store holder place) at
        ↔ ((at ≡ part.place) ⊎ (IsLost (F.meaning format.now) directory store at × (at ≢ place))) }
{}

/// A law: a place that is marked used is lost where it is available and no part's; one that is marked free is lost no
/// longer; and no other place is touched.
pub fn a_mark_loses_or_finds_one_place<F: WritableFormat>(format: &F)
    ensures used { (directory : Directory) (old new : List (List ℕ)) (place at : ℕ)
        → IsKept (F.meaning format.now) directory (remapped directory place false) old new
        → IsLost (F.meaning format.now) (remapped directory place false) new at
        ↔ (IsLost (F.meaning format.now) directory old at
        ⊎ ((at ≡ place) × Contains directory.available at × IsUnreached (F.meaning format.now) directory old at)) }
    ensures released { (directory : Directory) (old new : List (List ℕ)) (place at : ℕ)
        → place < length directory.free
        → IsKept (F.meaning format.now) directory (remapped directory place true) old new
        → IsLost (F.meaning format.now) (remapped directory place true) new at
        ↔ (IsLost (F.meaning format.now) directory old at × (at ≢ place)) }
{}
