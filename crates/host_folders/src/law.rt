// What always holds of names on the host.
ghost use Rattle.std.specs.Prelude.{◌≡◌, ◌≤◌, ℕ, length};
ghost use Rattle.host_folders.specs.HostNames.{Entry, IsSafe, host_name, text_beside};
ghost use Rattle.host_folders.specs.Laws.{AreApart, IsApartBeside, IsEntry, IsFile, IsNumber, SaysEntry, SaysKind};
ghost use Rattle.host_folders.specs.declared.entry.Naming.{Naming};

/// The name on the host of a stored name of up to 30 bytes, the most that a format stores, is safe on every system.
pub fn a_host_name_is_safe()
    ensures { (naming : Naming) (e : Entry) (number : ℕ) → IsEntry e → length e.name ≤ 30 → IsNumber number
        → IsSafe (host_name naming e number) }
{}

/// A name on the host says its entry: the stored name, and where it has a tail the type and the aux type. These say
/// the kind.
pub fn a_host_name_says_its_entry()
    ensures name { (naming : Naming) (e : Entry) (number : ℕ) → IsEntry e → IsNumber number
        → SaysEntry naming e number }
    ensures kind { (e : Entry) → SaysKind e }
{}

/// The name of the readable form of a file, beside that, is safe on every system too.
pub fn the_name_of_a_text_is_safe()
    ensures { (naming : Naming) (e : Entry) (number : ℕ) → IsEntry e → length e.name ≤ 30 → IsNumber number
        → IsSafe (text_beside (host_name naming e number)) }
{}

/// Of files of a folder the name of no readable form is that of a file, letters of either case taken as one, and two
/// have one name only where their files have.
pub fn names_of_texts_are_apart()
    ensures { (naming : Naming) (one other : Entry) (m n : ℕ) → IsFile naming one → IsFile naming other → IsNumber m
        → IsNumber n → IsApartBeside naming one other m n }
{}

/// Entries of a folder whose bare names differ, letters of either case taken as one, or that have different numbers,
/// have names that differ so.
pub fn host_names_are_apart()
    ensures { (naming : Naming) (one other : Entry) (m n : ℕ) → one.form ≡ other.form → IsEntry one → IsEntry other
        → IsNumber m → IsNumber n → AreApart naming one other m n }
{}
