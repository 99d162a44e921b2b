// What single writes do to the files.
ghost use Rattle.std.specs.Prelude.{◌≡◌, ◌<◌, ℕ, Bool, true, List, length, All, Contains, slice_index, slice_set};
ghost use Rattle.a2_device.specs.Device.{unit_at};
ghost use Rattle.vol_format.specs.Accepted.{IsAccepted};
ghost use Rattle.vol_format.specs.Directory.{Directory, map_place, remapped};
ghost use Rattle.vol_format.specs.Holding.{IsHolder};
ghost use Rattle.vol_format.specs.Standing.{Stands, IsLost, part_now};
ghost use Rattle.vol_laws.specs.Kept.{IsKept, IsUnreached};
ghost use Rattle.vol_laws.specs.Marked.{CanMark, with_marks, marked};
ghost use Rattle.vol_laws.specs.declared.mark.Mark.{Mark};
ghost use Rattle.vol_laws.specs.Moved.{IsReady, HasMoved, pointed, pointed_store};

use a2_device::Part;
use vol_format::{Holder, WritableFormat};

/// A law: a unit written to an available place at which no part stands leaves the files.
pub fn a_copy_keeps_the_files<F: WritableFormat>(format: &F)
    ensures { (directory : Directory) (store : List (List ℕ)) (place : ℕ) (unit : List ℕ)
        → IsAccepted (F.meaning format.now) directory store
        → Contains directory.available place → IsUnreached (F.meaning format.now) directory store place
        → IsKept (F.meaning format.now) directory directory store (slice_set store place unit) }
{}

/// A law: once the unit of a part is copied to a lost place, the part is ready to move there.
pub fn a_copy_makes_a_part_ready<F: WritableFormat>(format: &F)
    ensures { (directory : Directory) (store : List (List ℕ)) (part : Part) (holder : Holder) (place : ℕ)
        → IsAccepted (F.meaning format.now) directory store → IsLost (F.meaning format.now) directory store place
        → IsHolder (F.meaning format.now) directory store part holder → holder.place < length store
        → length (unit_at store holder.place) ≡ (F.meaning format.now).unit_size
        → IsReady (F.meaning format.now) directory
        (slice_set store place (unit_at store part.place)) part holder place }
{}

/// A law: a pointer that is written to name a copy of its part moves that part alone.
pub fn a_pointer_moves_one_part<F: WritableFormat>(format: &F)
    ensures part { (directory : Directory) (store : List (List ℕ)) (part : Part) (holder : Holder) (place : ℕ)
        → IsAccepted (F.meaning format.now) directory store
        → IsReady (F.meaning format.now) directory store part holder place
        → HasMoved (F.meaning format.now) directory (pointed directory part holder place) part place store
        (pointed_store (F.meaning format.now) store holder place) }
    ensures layout { (directory : Directory) (store : List (List ℕ)) (parts : List Part) (layout : List ℕ)
        (k number : ℕ) (holder : Holder)
        → IsAccepted (F.meaning format.now) directory store → Stands (F.meaning format.now) directory store parts layout
        → k < length parts → number < length directory.available
        → IsReady (F.meaning format.now) directory store (part_now parts directory.available layout k) holder
        (slice_index directory.available number)
        → Stands (F.meaning format.now) (pointed directory (part_now parts directory.available layout k) holder
        (slice_index directory.available number))
        (pointed_store (F.meaning format.now) store holder (slice_index directory.available number)) parts
        (slice_set layout k number) }
{}

/// A law: one place marked used, or one marked free at which no part stands, leaves the files.
pub fn a_mark_keeps_the_files<F: WritableFormat>(format: &F)
    ensures { (directory : Directory) (store : List (List ℕ)) (place : ℕ) (free : Bool)
        → IsAccepted (F.meaning format.now) directory store → place < directory.places
        → length (unit_at store (map_place directory place)) ≡ (F.meaning format.now).unit_size
        → (free ≡ true → IsUnreached (F.meaning format.now) directory store place)
        → IsKept (F.meaning format.now) directory (remapped directory place free) store
        (slice_set store (map_place directory place)
        ((F.meaning format.now).with_free (unit_at store (map_place directory place)) place free)) }
{}

/// A law: places of one unit of the map that are marked used, or marked free where no part stands, leave the files.
pub fn many_marks_keep_the_files<F: WritableFormat>(format: &F)
    ensures { (directory : Directory) (store : List (List ℕ)) (at : ℕ) (marks : List Mark)
        → IsAccepted (F.meaning format.now) directory store
        → length (unit_at store at) ≡ (F.meaning format.now).unit_size
        → All (CanMark (F.meaning format.now) directory store at) marks
        → IsKept (F.meaning format.now) directory (marked directory marks) store
        (slice_set store at (with_marks (F.meaning format.now) (unit_at store at) marks)) }
{}
