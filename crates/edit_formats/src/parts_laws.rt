// What the lists of parts are. Each law is a function with nothing to do: its contract is the law.
ghost use Rattle.std.specs.Prelude.{◌≤◌, Bool, List, length};
ghost use Rattle.edit_formats.specs.Parts.{dos_parts_of, kept, pro_parts_of, storage_type};
ghost use Rattle.edit_formats.specs.Order.{AreDosParts, AreProParts, HasStored};

/// A law: the parts of a DOS 3.3 file are its lists, each but the first named by the one before it, and the units that
/// are stored, each behind the list that names it.
pub fn parts_of_a_new_dos_file()
    ensures parts { (stored : List Bool) → length stored ≤ 560 → AreDosParts (dos_parts_of stored) }
    ensures units { (stored : List Bool) → HasStored stored (dos_parts_of stored) }
{}

/// A law: the parts of a ProDOS file are those of its storage type: a master index before its indexes, and the units
/// that are stored, each behind the index that names it. The one unit of a seedling is kept in any case.
pub fn parts_of_a_new_pro_file()
    ensures parts { (stored : List Bool) → length stored ≤ 32768
        → AreProParts (storage_type (length stored)) (pro_parts_of stored) }
    ensures units { (stored : List Bool) → length stored ≤ 32768 → HasStored (kept stored) (pro_parts_of stored) }
{}
