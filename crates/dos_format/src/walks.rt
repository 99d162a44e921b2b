// The parts that a walk over one file answers, and those of the volume.
ghost use Rattle.std.specs.Prelude.{◌≡◌, ◌↔◌, ℕ, Bool, List, Some, slice_get};
ghost use Rattle.dos_catalog.specs.Entry.{entries_in};
ghost use Rattle.dos_catalog.specs.Catalog.{IsCatalog};
ghost use Rattle.dos_tslist.specs.Reach.{InFile, IsPartsOf as IsWalkOf, entry_pointer};
ghost use Rattle.vol_format.specs.Directory.{Directory};
ghost use Rattle.vol_format.specs.Reach.{Reach};
ghost use Rattle.vol_format.specs.Layout.{IsPartsOfFile};
ghost use Rattle.dos_format.specs.Dos.{DescribesDos, dos_meaning};

use a2_device::Part;
use dos_catalog::Entry;

/// A law: what the pointers of an entry of the catalog reach is what the file of this entry has on the volume, and so
/// are, in order, the parts that `dos_tslist::walk` answers.
pub fn a_walk_tells_the_parts_of_its_file()
    ensures part { (data_disk : Bool) (reserved : List Bool) (store : List (List ℕ)) (directory : Directory)
        (sectors : List ℕ) (file : ℕ) (entry : Entry) (part : Part)
        → DescribesDos data_disk reserved store directory → IsCatalog store sectors
        → slice_get (entries_in store sectors) file ≡ Some entry
        → InFile store file (entry_pointer entry) part
        ↔ (Reach (dos_meaning data_disk reserved) directory store part × (part.file ≡ file)) }
    ensures parts { (data_disk : Bool) (reserved : List Bool) (store : List (List ℕ)) (directory : Directory)
        (sectors : List ℕ) (file : ℕ) (entry : Entry) (parts : List Part)
        → DescribesDos data_disk reserved store directory → IsCatalog store sectors
        → slice_get (entries_in store sectors) file ≡ Some entry
        → IsWalkOf store file (entry_pointer entry) parts
        ↔ IsPartsOfFile (dos_meaning data_disk reserved) directory store file parts }
{}
