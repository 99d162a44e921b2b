// The parts of one file, and the layout of a volume.
ghost use Rattle.std.specs.Prelude.{◌≡◌, ◌↔◌, ℕ, ◌==◌, List, filter};
ghost use Rattle.vol_format.specs.Accepted.{IsAccepted};
ghost use Rattle.vol_format.specs.Directory.{Directory};
ghost use Rattle.vol_format.specs.Reach.{IsPartsOf};
ghost use Rattle.vol_format.specs.Standing.{layout_of};
ghost use Rattle.vol_format.specs.Layout.{HasLayout, IsPartsOfFile};

use crate::Format;
use a2_device::Part;

/// A law: a directory and a store have one list of parts at most, and a store has one layout at most.
pub fn a_store_has_one_layout<F: Format>(format: &F)
    ensures parts { (directory : Directory) (store : List (List ℕ)) (parts others : List Part)
        → IsPartsOf (F.meaning format.now) directory store parts
        → IsPartsOf (F.meaning format.now) directory store others
        → parts ≡ others }
    ensures layout { (store : List (List ℕ)) (at other : List ℕ)
        → HasLayout (F.meaning format.now) store at → HasLayout (F.meaning format.now) store other
        → at ≡ other }
{}

/// A law: a volume whose parts are known has the layout of these parts.
pub fn a_volume_has_its_layout<F: Format>(format: &F)
    ensures { (directory : Directory) (store : List (List ℕ)) (parts : List Part)
        → IsAccepted (F.meaning format.now) directory store → IsPartsOf (F.meaning format.now) directory store parts
        → HasLayout (F.meaning format.now) store (layout_of directory parts) }
{}

/// A law: the parts of a file are those of the volume that have the number of its entry, in the same order.
pub fn a_file_has_its_parts_of_the_volume<F: Format>(format: &F)
    ensures { (directory : Directory) (store : List (List ℕ)) (all : List Part) (entry : ℕ) (parts : List Part)
        → IsPartsOf (F.meaning format.now) directory store all
        → IsPartsOfFile (F.meaning format.now) directory store entry parts
        ↔ (parts ≡ filter (λ (part : Part). part.file == entry) all) }
{}
