// What the entry of a new directory does to the directory of a volume, and to its files.
ghost use Rattle.std.specs.Prelude.{◌≡◌, ◌≤◌, ◌<◌, ℕ, Bool, false, List, length, slice_set, Option};
ghost use Rattle.a2_device.specs.Device.{unit_at};
ghost use Rattle.pro_dir.specs.Volume.{Directory as Tree, Describes};
ghost use Rattle.pro_dir.specs.Writes.{slot_offset, with_bytes};
ghost use Rattle.vol_format.specs.Accepted.{IsAccepted};
ghost use Rattle.vol_format.specs.Directory.{Directory, Listed, entries, is_system};
ghost use Rattle.vol_format.specs.declared.link.Link.TheVariants.{Directory as ToDirectory};
ghost use Rattle.pro_format.specs.Pro.{DescribesPro};
ghost use Rattle.vol_laws.specs.EditLaws.{IsFileFree};
ghost use Rattle.vol_laws.specs.Entered.{HasSameRest};
ghost use Rattle.vol_laws.specs.Kept.{IsUnreached};
ghost use Rattle.pro_format.specs.Slots.{IsFreeSlotOf, IsPathOfDirectory};
ghost use Rattle.file_edits.specs.Leaf.{IsEmptyDirectory, IsLeafEntry, HasOneDirectoryMore};
ghost use Rattle.file_edits.specs.WithDirectory.{with_directory, HasNewDirectory};

use vol_format::WritableFormat;

/// A law: the entry of an empty directory of one block, written into a free slot of a directory, makes the volume's
/// directory that with one entry more, in this slot and under the path of its directory and its name, and with the
/// block as one of the system's. The block stood at an available place before.
pub fn an_empty_directory_is_entered_into_another()
    ensures { (reserved : List Bool) (store : List (List ℕ)) (directory : Directory) (tree : Tree)
        (key place slot leaf : ℕ) (above : Option (List ℕ)) (bytes : List ℕ)
        → DescribesPro reserved store directory → Describes store tree → IsPathOfDirectory tree.entries key above
        → IsFreeSlotOf store key place slot
        → length (unit_at store place) ≡ 512 → IsLeafEntry leaf bytes
        → is_system directory leaf ≡ false → leaf < directory.places → IsEmptyDirectory store leaf
        → HasOneDirectoryMore reserved tree.entries directory store
        (slice_set store place (with_bytes (slot_offset slot) bytes (unit_at store place))) above place slot leaf
        bytes }
{}

/// A law: an entry of a directory that is entered, whose unit is the system's from then on and was no part's, keeps the
/// parts of all files and the list of the files.
pub fn a_new_directory_keeps_the_files<F: WritableFormat>(format: &F)
    ensures { IsFileFree (F.meaning format.now)
        → (few : Directory) (at : ℕ) (entry : Listed) (place : ℕ) (old new : List (List ℕ))
        → at ≤ entries few → entry.root ≡ ToDirectory → IsAccepted (F.meaning format.now) few old
        → IsUnreached (F.meaning format.now) few old place → HasSameRest few old new
        → (F.meaning format.now).Describes new (with_directory few at entry place)
        → HasNewDirectory (F.meaning format.now) few at entry place old new }
{}
