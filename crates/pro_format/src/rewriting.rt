// What a file's entry says once its access bits or its name are written.
ghost use Rattle.std.specs.Prelude.{◌≡◌, ◌≤◌, ◌<◌, ℕ, Bool, false, List, length, take, slice_set};
ghost use Rattle.a2_device.specs.Device.{unit_at};
ghost use Rattle.pro_dir.specs.Entry.{name_of};
ghost use Rattle.pro_dir.specs.Writes.{slot_offset};
ghost use Rattle.vol_format.specs.Directory.{Directory, is_directory, entries, entry_of};
ghost use Rattle.pro_format.specs.Pro.{DescribesPro};
ghost use Rattle.vol_laws.specs.Entered.{HasSameRest};
ghost use Rattle.vol_laws.specs.Inserted.{rewritten};
ghost use Rattle.pro_format.specs.Rewritten.{access_at, renamed, with_access, with_name};

/// A law: a file's entry can be rewritten in its slot, and nothing else of the volume's directory changes.
///
/// `access`: with other access bits the entry has its path, and its bytes with these bits. `name`: with another name
/// the path ends with this name in place of the old one, and the entry has its bytes with the name and its length. No
/// other path has in it the name of an entry that is no directory's. `rest`: the block is one of the system's, so the
/// units of files stay.
pub fn an_entry_of_a_directory_is_rewritten()
    ensures access { (reserved : List Bool) (store : List (List ℕ)) (directory : Directory) (file access : ℕ)
        → DescribesPro reserved store directory → file < entries directory
        → is_directory (entry_of directory file) ≡ false
        → length (unit_at store (entry_of directory file).place) ≡ 512
        → let entry = entry_of directory file in
        DescribesPro reserved
        (slice_set store entry.place (with_access (slot_offset entry.slot) access (unit_at store entry.place)))
        (rewritten directory file entry.path (slice_set entry.bytes access_at access)) }
    ensures name { (reserved : List Bool) (store : List (List ℕ)) (directory : Directory) (file len : ℕ) (name : List ℕ)
        → DescribesPro reserved store directory → file < entries directory
        → is_directory (entry_of directory file) ≡ false
        → length (unit_at store (entry_of directory file).place) ≡ 512 → len ≤ 15 → length name ≡ 15
        → let entry = entry_of directory file in
        DescribesPro reserved
        (slice_set store entry.place (with_name (slot_offset entry.slot) len name (unit_at store entry.place)))
        (rewritten directory file (renamed entry.path (name_of entry.bytes) (take len name))
        (with_name 0 len name entry.bytes)) }
    ensures rest { (reserved : List Bool) (store : List (List ℕ)) (directory : Directory) (file : ℕ) (unit : List ℕ)
        → DescribesPro reserved store directory → file < entries directory
        → HasSameRest directory store (slice_set store (entry_of directory file).place unit) }
{}
