// What a new entry in a free slot of the catalog does to the directory.
ghost use Rattle.std.specs.Prelude.{
  ◌≡◌,
  ◌<◌,
  ◌≤◌,
  ℕ,
  Bool,
  true,
  List,
  length,
  slice_get,
  slice_set,
  Some,
  None,
  Contains,
};
ghost use Rattle.a2_device.specs.Device.{unit_at};
ghost use Rattle.dos_catalog.specs.declared.slot.NewEntry.{NewEntry};
ghost use Rattle.dos_catalog.specs.Catalog.{IsCatalog};
ghost use Rattle.dos_catalog.specs.Entry.{free_slots_in};
ghost use Rattle.vol_format.specs.Directory.{Directory, entries, is_system};
ghost use Rattle.dos_format.specs.Dos.{DescribesDos, CanNameDos};
ghost use Rattle.vol_laws.specs.Entered.{HasSameRest};
ghost use Rattle.vol_laws.specs.Inserted.{inserted};
ghost use Rattle.dos_format.specs.Slots.{IsFreeSlot, number_of_slot, new_listed, entry_written};

/// A law: what `encode` of `dos_catalog` writes into a free slot of the catalog is one entry more, with the number that
/// the slot has among the entries in use. The slot stands in a sector of the system, so that a write to it leaves the
/// units of the files.
pub fn an_entry_is_entered_into_the_catalog()
    ensures directory { (data_disk : Bool) (reserved : List Bool) (store : List (List ℕ)) (directory : Directory)
        (sectors : List ℕ) (place slot : ℕ) (new : NewEntry)
        → DescribesDos data_disk reserved store directory → IsCatalog store sectors
        → IsFreeSlot store sectors place slot
        → length (unit_at store place) ≡ 256 → length new.name ≡ 30 → CanNameDos new.pointer
        → DescribesDos data_disk reserved (entry_written store place slot new)
        (inserted directory (number_of_slot store sectors place slot)
        (new_listed (number_of_slot store sectors place slot) place slot new)) }
    ensures number { (data_disk : Bool) (reserved : List Bool) (store : List (List ℕ)) (directory : Directory)
        (sectors : List ℕ) (place slot : ℕ)
        → DescribesDos data_disk reserved store directory → IsCatalog store sectors
        → IsFreeSlot store sectors place slot
        → number_of_slot store sectors place slot ≤ entries directory }
    ensures place { (data_disk : Bool) (reserved : List Bool) (store : List (List ℕ)) (directory : Directory)
        (sectors : List ℕ) (place : ℕ)
        → DescribesDos data_disk reserved store directory → IsCatalog store sectors → Contains sectors place
        → (place < length store) × (is_system directory place ≡ true) }
    ensures rest { (data_disk : Bool) (reserved : List Bool) (store : List (List ℕ)) (directory : Directory)
        (sectors : List ℕ) (place : ℕ) (unit : List ℕ)
        → DescribesDos data_disk reserved store directory → IsCatalog store sectors → Contains sectors place
        → HasSameRest directory store (slice_set store place unit) }
{}

/// A law: the slot that a walk over the catalog answers as the first free one is a free slot of the catalog; where it
/// answers none, there is none.
pub fn the_free_slot_of_the_catalog()
    ensures some { (store : List (List ℕ)) (sectors : List ℕ) (place slot : ℕ)
        → slice_get (free_slots_in store sectors) 0 ≡ Some (place, slot) → IsFreeSlot store sectors place slot }
    ensures none { (store : List (List ℕ)) (sectors : List ℕ) (place slot : ℕ)
        → slice_get (free_slots_in store sectors) 0 ≡ None → ¬ IsFreeSlot store sectors place slot }
{}
