// What always holds of the types of files, and of a file that takes the place of none.
ghost use Rattle.std.specs.Prelude.{◌≡◌, ℕ, List, Some};
ghost use Rattle.host_folders.specs.HostNames.{type_in};
ghost use Rattle.vol_layout.specs.declared.form.PlaceForm.TheVariants.{Sector};
ghost use Rattle.shop_changes.specs.GivenWords.{kind_for, kind_named};
ghost use Rattle.shop_changes.specs.Replaced.{IsGivenAsNew};
ghost use Rattle.shop_changes.specs.SaidFile.{SaidView};
ghost use Rattle.shop_jobs.specs.declared.input.FileSystem.TheVariants.{Dos};

/// Each type of DOS 3.3 that a letter names, and so a new file may have, is got back from the type of ProDOS that
/// stands for it; and that of ProDOS from the one of DOS 3.3. So a file that is read as an AppleSingle file and saved
/// from it keeps its type.
pub fn a_kind_is_got_back_from_its_type()
    ensures kind { (letter : List ℕ) (kind : ℕ) → kind_named Dos letter ≡ Some kind
        → kind_for Dos (type_in Sector kind) ≡ Some kind }
    ensures file_type { (file_type kind : ℕ) → kind_for Dos file_type ≡ Some kind
        → type_in Sector kind ≡ file_type }
{}

/// A law: where no file has the path, the file that takes the place of the one that does is the one that is saved
/// without that.
pub fn what_takes_the_place_of_none_is_saved()
    ensures { (said plain : SaidView) → IsGivenAsNew said plain }
{}
