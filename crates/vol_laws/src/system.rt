// What the units of the system keep, and how marks are read back.
ghost use Rattle.std.specs.Prelude.{◌≡◌, ◌≢◌, ◌<◌, ℕ, Bool, List, length, All, Contains, slice_set};
ghost use Rattle.a2_device.specs.Device.{unit_at};
ghost use Rattle.vol_format.specs.Accepted.{IsAccepted};
ghost use Rattle.vol_format.specs.Directory.{Directory, is_free, map_place, remapped};
ghost use Rattle.vol_laws.specs.Marked.{CanMark, with_marks, marked};
ghost use Rattle.vol_laws.specs.declared.mark.Mark.{Mark};
ghost use Rattle.vol_laws.specs.Moved.{IsReady, pointed, pointed_store};
ghost use Rattle.vol_laws.specs.System.{SameSystem};

use a2_device::Part;
use vol_format::{Holder, WritableFormat};

/// A law: no write changes the content of a unit of the system.
pub fn each_write_keeps_the_system<F: WritableFormat>(format: &F)
    ensures copy { (directory : Directory) (store : List (List ℕ)) (place : ℕ) (unit : List ℕ)
        → IsAccepted (F.meaning format.now) directory store → Contains directory.available place
        → SameSystem (F.meaning format.now) directory directory store (slice_set store place unit) }
    ensures pointer { (directory : Directory) (store : List (List ℕ)) (part : Part) (holder : Holder) (place : ℕ)
        → IsAccepted (F.meaning format.now) directory store
        → IsReady (F.meaning format.now) directory store part holder place
        → SameSystem (F.meaning format.now) directory (pointed directory part holder place) store
        (pointed_store (F.meaning format.now) store holder place) }
    ensures mark { (directory : Directory) (store : List (List ℕ)) (place : ℕ) (free : Bool)
        → (F.meaning format.now).Describes store directory → Contains directory.available place
        → length (unit_at store (map_place directory place)) ≡ (F.meaning format.now).unit_size
        → SameSystem (F.meaning format.now) directory (remapped directory place free) store
        (slice_set store (map_place directory place)
        ((F.meaning format.now).with_free (unit_at store (map_place directory place)) place free)) }
    ensures marks { (directory : Directory) (store : List (List ℕ)) (at : ℕ) (marks : List Mark)
        → IsAccepted (F.meaning format.now) directory store
        → length (unit_at store at) ≡ (F.meaning format.now).unit_size
        → All (CanMark (F.meaning format.now) directory store at) marks
        → All (λ (mark : Mark). Contains directory.available mark.place) marks
        → SameSystem (F.meaning format.now) directory (marked directory marks) store
        (slice_set store at (with_marks (F.meaning format.now) (unit_at store at) marks)) }
{}

/// A law: after several marks a place is marked as they say where they agree on it, and as before where none is its
/// own.
pub fn marks_are_read_back()
    ensures marked { (directory : Directory) (marks : List Mark) (mark : Mark)
        → mark.place < length directory.free → Contains marks mark
        → All (λ (other : Mark). other.place ≡ mark.place → other.free ≡ mark.free) marks
        → is_free (marked directory marks) mark.place ≡ mark.free }
    ensures others { (directory : Directory) (marks : List Mark) (place : ℕ)
        → All (λ (mark : Mark). mark.place ≢ place) marks
        → is_free (marked directory marks) place ≡ is_free directory place }
{}
