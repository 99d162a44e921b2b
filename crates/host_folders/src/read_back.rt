// What always holds of what names on the host say.
ghost use Rattle.std.specs.Prelude.{◌≡◌, ℕ, List, false, true};
ghost use Rattle.vol_layout.specs.declared.form.PlaceForm.{PlaceForm};
ghost use Rattle.host_folders.specs.HostNames.{Entry};
ghost use Rattle.host_folders.specs.Laws.{IsEntry, IsNumber};
ghost use Rattle.host_folders.specs.declared.entry.Naming.{Naming};
ghost use Rattle.host_folders.specs.ReadBack.{IsFolderReadBack, IsReadBack, IsTextReadBack, SaysOneFile, SaysOneFolder};

/// A name says at most one file.
pub fn a_host_name_says_one_file()
    ensures { (form : PlaceForm) (text : List ℕ) → SaysOneFile form text }
{}

/// A name says the stored name of at most one folder.
pub fn a_host_name_says_one_folder()
    ensures { (form : PlaceForm) (text : List ℕ) → SaysOneFolder form text }
{}

/// The name that `host_name` gives a file, with its type, says that file.
pub fn a_host_name_is_read_back()
    ensures { (e : Entry) (number : ℕ) → IsEntry e → IsNumber number → e.directory ≡ false → IsReadBack e number }
{}

/// The name of its readable form beside it says it too, where it is a text or a program in Applesoft.
pub fn the_name_of_a_text_is_read_back()
    ensures { (e : Entry) (number : ℕ) → IsEntry e → IsNumber number → e.directory ≡ false → IsTextReadBack e number }
{}

/// The name that `host_name` gives a folder says its stored name.
pub fn the_name_of_a_folder_is_read_back()
    ensures { (naming : Naming) (e : Entry) (number : ℕ) → IsEntry e → IsNumber number → e.directory ≡ true
        → e.text ≡ false → IsFolderReadBack naming e number }
{}
