// What the kind of a file, or its name, written into its slot of the catalog does to the directory.
ghost use Rattle.std.specs.Prelude.{◌≡◌, ◌<◌, ◌≤◌, ℕ, Bool, true, List, length, slice_set};
ghost use Rattle.vol_format.specs.Directory.{Directory, entries, entry_of, is_system};
ghost use Rattle.dos_format.specs.Dos.{DescribesDos};
ghost use Rattle.vol_laws.specs.Entered.{HasSameRest};
ghost use Rattle.vol_laws.specs.Inserted.{rewritten};
ghost use Rattle.dos_format.specs.Rewriting.{
  with_kind,
  with_name,
  place_of_entry,
  slot_of_entry,
  sector_of_entry,
  kind_written,
  name_written,
};

/// A law: what `set_kind` and `set_name` of `dos_catalog` write into the slot of an entry rewrites this entry alone.
/// The slot is one of the seven of a sector of the system, so that a write to it leaves the units of the files.
pub fn an_entry_of_the_catalog_is_rewritten()
    ensures kind { (data_disk : Bool) (reserved : List Bool) (store : List (List ℕ)) (directory : Directory)
        (file kind : ℕ)
        → DescribesDos data_disk reserved store directory → file < entries directory
        → length (sector_of_entry directory store file) ≡ 256
        → DescribesDos data_disk reserved (kind_written directory store file kind)
        (rewritten directory file (entry_of directory file).path (with_kind kind (entry_of directory file).bytes)) }
    ensures name { (data_disk : Bool) (reserved : List Bool) (store : List (List ℕ)) (directory : Directory) (file : ℕ)
        (name : List ℕ)
        → DescribesDos data_disk reserved store directory → file < entries directory
        → length (sector_of_entry directory store file) ≡ 256 → length name ≡ 30
        → DescribesDos data_disk reserved (name_written directory store file name)
        (rewritten directory file name (with_name name (entry_of directory file).bytes)) }
    ensures place { (data_disk : Bool) (reserved : List Bool) (store : List (List ℕ)) (directory : Directory) (file : ℕ)
        → DescribesDos data_disk reserved store directory → file < entries directory
        → (place_of_entry directory file < length store)
        × (is_system directory (place_of_entry directory file) ≡ true) }
    ensures slot { (data_disk : Bool) (reserved : List Bool) (store : List (List ℕ)) (directory : Directory) (file : ℕ)
        → DescribesDos data_disk reserved store directory → file < entries directory
        → slot_of_entry directory file < 7 }
    ensures rest { (data_disk : Bool) (reserved : List Bool) (store : List (List ℕ)) (directory : Directory) (file : ℕ)
        (unit : List ℕ)
        → DescribesDos data_disk reserved store directory → file < entries directory
        → HasSameRest directory store (slice_set store (place_of_entry directory file) unit) }
{}
