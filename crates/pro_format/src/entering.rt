// What an entry entered into a directory, or erased there, does to the directory of the volume.
ghost use Rattle.std.specs.Prelude.{◌≡◌, ◌<◌, ℕ, Bool, false, List, length, slice_set, Option, Some, None};
ghost use Rattle.a2_device.specs.Device.{unit_at};
ghost use Rattle.pro_dir.specs.declared.slot.NewFile.{NewFile};
ghost use Rattle.pro_dir.specs.Listed.{directory_of, free_slot_of};
ghost use Rattle.pro_dir.specs.Parents.{entry_in};
ghost use Rattle.pro_dir.specs.Volume.{Directory as Tree, Describes};
ghost use Rattle.pro_dir.specs.Walk.{IsKeyOf};
ghost use Rattle.pro_dir.specs.Writes.{entry_bytes, slot_offset, with_bytes, word_bytes};
ghost use Rattle.vol_format.specs.Directory.{Directory, is_directory, entries, entry_of};
ghost use Rattle.pro_format.specs.Pro.{DescribesPro};
ghost use Rattle.pro_format.specs.Slots.{
  IsFileEntry,
  IsFreeSlotOf,
  IsPathOfDirectory,
  IsProperFile,
  IsSlotOf,
  KeepsFreeSlots,
  HasOneEntryLess,
  HasOneEntryMore,
  HasSameDirectory,
  SaysOfFile,
};

use pro_dir::VolumeDir;
use std::alloc::Allocator;

/// A law: a file's entry written into a free slot of a directory makes the volume's directory that with one entry more,
/// in this slot and under the path of its directory and its name.
pub fn an_entry_is_entered_into_a_directory()
    ensures { (reserved : List Bool) (store : List (List ℕ)) (directory : Directory) (tree : Tree) (key place slot : ℕ)
        (above : Option (List ℕ)) (bytes : List ℕ)
        → DescribesPro reserved store directory → Describes store tree → IsPathOfDirectory tree.entries key above
        → IsFreeSlotOf store key place slot
        → length (unit_at store place) ≡ 512 → IsFileEntry bytes
        → HasOneEntryMore reserved tree.entries directory store
        (slice_set store place (with_bytes (slot_offset slot) bytes (unit_at store place))) above place slot bytes }
{}

/// A law: the bytes that `pro_dir::encode` writes of a new file are a file's entry with its name, its storage type and
/// its key pointer.
pub fn a_new_file_has_its_entry()
    ensures { (file : NewFile) → IsProperFile file → SaysOfFile file (entry_bytes file) }
{}

/// A law: a file's entry whose storage type and name's length are put to 0 is no entry any more, and the others are
/// those before.
pub fn an_entry_is_erased_from_a_directory()
    ensures { (reserved : List Bool) (store : List (List ℕ)) (directory : Directory) (tree : Tree) (file : ℕ)
        → DescribesPro reserved store directory → Describes store tree → file < entries directory
        → is_directory (entry_of directory file) ≡ false
        → length (unit_at store (entry_of directory file).place) ≡ 512
        → let entry = entry_of directory file in
        HasOneEntryLess reserved tree.entries directory store
        (slice_set store entry.place (slice_set (unit_at store entry.place) (slot_offset entry.slot) 0)) file }
{}

/// A law: the count of files written into the header of a directory leaves the directory of the volume as it is.
pub fn a_file_count_keeps_the_directory()
    ensures { (reserved : List Bool) (store : List (List ℕ)) (directory : Directory) (tree : Tree) (key count : ℕ)
        → DescribesPro reserved store directory → Describes store tree → IsKeyOf tree.entries key
        → length (unit_at store key) ≡ 512
        → HasSameDirectory reserved directory store
        (slice_set store key (with_bytes 0x25 (word_bytes count) (unit_at store key))) }
{}

/// A law: each entry stands in a slot of a directory of the volume, the one that it has as its own.
pub fn an_entry_stands_in_its_directory()
    ensures { (store : List (List ℕ)) (tree : Tree) (number : ℕ) → Describes store tree → number < length tree.entries
        → let entry = entry_in tree.entries number in
        IsKeyOf tree.entries entry.directory × IsSlotOf store entry.directory entry.place entry.slot }
{}

/// A law: the slot that a walk over the directories of a volume keeps for a directory is a free slot of it, and where
/// none is kept the directory has none.
pub fn the_free_slot_of_a_directory<A: Allocator>(volume: &VolumeDir<A>)
    ensures some { (store : List (List ℕ)) (key place slot : ℕ)
        → Describes store (directory_of volume.now) → KeepsFreeSlots store volume.now
        → IsKeyOf (directory_of volume.now).entries key → free_slot_of volume.now key ≡ Some (place, slot)
        → IsFreeSlotOf store key place slot }
    ensures none { (store : List (List ℕ)) (key place slot : ℕ)
        → Describes store (directory_of volume.now) → KeepsFreeSlots store volume.now
        → IsKeyOf (directory_of volume.now).entries key → free_slot_of volume.now key ≡ None
        → ¬ IsFreeSlotOf store key place slot }
{}
