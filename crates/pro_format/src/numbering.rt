// Files by their numbers.
ghost use Rattle.std.specs.Prelude.{Bool, List};
ghost use Rattle.pro_format.specs.Pro.{pro_meaning};
ghost use Rattle.vol_laws.specs.EditLaws.{IsFileFree};

/// A law: what a block of a file means does not depend on the number of the file's entry.
pub fn pro_units_mean_the_same_in_every_file()
    ensures { (reserved : List Bool) → IsFileFree (pro_meaning reserved) }
{}
