// What the generic laws of entries ask of DOS 3.3.
ghost use Rattle.std.specs.Prelude.{Bool, List};
ghost use Rattle.dos_format.specs.Dos.{dos_meaning};
ghost use Rattle.vol_laws.specs.EditLaws.{IsFileFree};

/// A law: in DOS 3.3 what the unit of a part means does not depend on the number of its file.
pub fn dos_units_mean_the_same_in_every_file()
    ensures { (data_disk : Bool) (reserved : List Bool) → IsFileFree (dos_meaning data_disk reserved) }
{}
