// What holds of volumes, of their layouts and of runs.
ghost use Rattle.std.specs.Prelude.{ℕ, List};
ghost use Rattle.a2_device.specs.declared.part.Part.{Part};
ghost use Rattle.vol_format.specs.Accepted.{IsAccepted};
ghost use Rattle.vol_format.specs.Directory.{Directory};
ghost use Rattle.vol_format.specs.Standing.{Stands};
ghost use Rattle.vol_format.specs.Layout.{HasLayout};

use vol_format::WritableFormat;

/// A law: an accepted volume whose parts stand where a layout says has that layout.
pub fn parts_that_stand_have_their_layout<F: WritableFormat>(format: &F)
    ensures { (directory : Directory) (store : List (List ℕ)) (parts : List Part) (at : List ℕ)
        → IsAccepted (F.meaning format.now) directory store → Stands (F.meaning format.now) directory store parts at
        → HasLayout (F.meaning format.now) store at }
{}
