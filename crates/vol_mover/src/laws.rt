// What the same volume in two stores means for its files.
ghost use Rattle.std.specs.Prelude.{◌↔◌, ℕ, List};
ghost use Rattle.vol_format.specs.Accepted.{IsVolume};
ghost use Rattle.vol_format.specs.Files.{File, HasFiles};
ghost use Rattle.vol_mover.specs.Volume.{SameVolume};

use vol_format::WritableFormat;

/// A law: two accepted stores that hold the same volume have the same list of files.
pub fn the_same_volume_has_the_same_files<F: WritableFormat>(format: &F)
    ensures { (old new : List (List ℕ)) → SameVolume (F.meaning format.now) old new
        → IsVolume (F.meaning format.now) old → IsVolume (F.meaning format.now) new
        → (files : List File) → HasFiles (F.meaning format.now) old files ↔ HasFiles (F.meaning format.now) new files }
{}
