// What an entry deleted from the catalog does to the directory.
ghost use Rattle.std.specs.Prelude.{◌≡◌, ◌<◌, ℕ, Bool, List, length};
ghost use Rattle.dos_catalog.specs.Catalog.{IsCatalog};
ghost use Rattle.vol_format.specs.Directory.{Directory, entries};
ghost use Rattle.dos_format.specs.Dos.{DescribesDos};
ghost use Rattle.dos_format.specs.Erasing.{HasErased};
ghost use Rattle.dos_format.specs.Rewriting.{place_of_entry, slot_of_entry, sector_of_entry, entry_erased};
ghost use Rattle.dos_format.specs.Slots.{IsUsedSlot};

/// A law: what `erase` of `dos_catalog` writes into the slot of an entry takes this entry out of the directory, and it
/// alone; each slot in use of the catalog is that of an entry.
pub fn an_entry_is_erased_from_the_catalog()
    ensures file { (data_disk : Bool) (reserved : List Bool) (store : List (List ℕ)) (directory : Directory) (file : ℕ)
        → DescribesDos data_disk reserved store directory → file < entries directory
        → length (sector_of_entry directory store file) ≡ 256
        → HasErased data_disk reserved directory file store (entry_erased directory store file) }
    ensures slot { (data_disk : Bool) (reserved : List Bool) (store : List (List ℕ)) (directory : Directory)
        (sectors : List ℕ) (place slot : ℕ)
        → DescribesDos data_disk reserved store directory → IsCatalog store sectors
        → IsUsedSlot store sectors place slot
        → (file : ℕ) × (file < entries directory) × (place_of_entry directory file ≡ place)
        × (slot_of_entry directory file ≡ slot) }
{}
