// What is written elsewhere leaves the catalog as it is.
ghost use Rattle.std.specs.Prelude.{◌≡◌, ℕ, Bool, false, List, length, slice_set, Contains};
ghost use Rattle.a2_device.specs.Device.{unit_at};
ghost use Rattle.dos_catalog.specs.Catalog.{IsCatalog};
ghost use Rattle.vol_format.specs.Directory.{Directory, is_system};
ghost use Rattle.dos_format.specs.Dos.{DescribesDos, dos_meaning};
ghost use Rattle.vol_laws.specs.Marked.{with_marks};
ghost use Rattle.dos_format.specs.SameCatalog.{HasSameCatalog};
ghost use Rattle.dos_format.specs.Slots.{IsFreeSlot, number_of_slot};

use vol_laws::Mark;

/// A law: units written outside the system and marks made in the VTOC leave the catalog, so that a free slot stays free
/// and keeps its number.
pub fn a_write_elsewhere_leaves_the_catalog()
    ensures unit { (data_disk : Bool) (reserved : List Bool) (store : List (List ℕ)) (directory : Directory) (place : ℕ)
        (unit : List ℕ)
        → DescribesDos data_disk reserved store directory → is_system directory place ≡ false
        → HasSameCatalog store (slice_set store place unit) }
    ensures marks { (data_disk : Bool) (reserved : List Bool) (store : List (List ℕ)) (marks : List Mark)
        → length store ≡ 560
        → HasSameCatalog store
        (slice_set store 272 (with_marks (dos_meaning data_disk reserved) (unit_at store 272) marks)) }
    ensures both { (first second third : List (List ℕ))
        → HasSameCatalog first second → HasSameCatalog second third → HasSameCatalog first third }
    ensures catalog { (old new : List (List ℕ)) (sectors : List ℕ)
        → HasSameCatalog old new → IsCatalog old sectors → IsCatalog new sectors }
    ensures free { (old new : List (List ℕ)) (sectors : List ℕ) (place slot : ℕ)
        → HasSameCatalog old new → IsCatalog old sectors → IsFreeSlot old sectors place slot
        → IsFreeSlot new sectors place slot }
    ensures number { (old new : List (List ℕ)) (sectors : List ℕ) (place slot : ℕ)
        → HasSameCatalog old new → IsCatalog old sectors → Contains sectors place
        → number_of_slot new sectors place slot ≡ number_of_slot old sectors place slot }
{}
