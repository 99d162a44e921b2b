// One file of a volume as a volume of its own, so that the checker walks over its parts alone.
ghost use Rattle.std.specs.Prelude.{◌≡◌, ◌<◌, ◌≤◌, IfOk};
ghost use Rattle.vol_format.specs.Directory.{entries};
ghost use Rattle.file_cmds.specs.KnownVolume.{of_known};
ghost use Rattle.file_cmds.specs.OneFile.{file_alone};

use a2_device::{Device, Part, WalkError};
use vol_format::{Format, Holder, Link};

/// A format whose volumes have one file: that of an entry of a volume that was read. Each place is available, and none
/// is marked free.
#[derive(Drop)]
pub struct OneFile<'a, F: Format> {
    pub format: &'a F,
    pub volume: &'a F::Volume,
    pub file: u32,
    pub places: u32,
    ghost of_volume: { places ≡ (F.directory format.now volume.now).places },
    ghost few: { (F.directory format.now volume.now).places ≤ 65536 },
}

impl<F: Format> Format for OneFile<'_, F> {
    ghost use Rattle.file_cmds.specs.lemmas.FileAlone.{alone_is_directory};
    ghost use Rattle.file_cmds.specs.lemmas.KnownVolume.{known_is_readable};

    type Volume = ();

    ghost meaning = { λ f.
        of_known (F.meaning f.format.now) (file_alone (F.directory f.format.now f.volume.now) f.file) };

    ghost directory = { λ f v. file_alone (F.directory f.format.now f.volume.now) f.file };

    ghost readable = { λ f. known_is_readable (F.meaning f.format.now)
        (file_alone (F.directory f.format.now f.volume.now) f.file) (F.readable f.format.now) };

    ghost rooted = { λ f v. alone_is_directory (F.directory f.format.now f.volume.now) f.file (F.meaning f.format.now)
        (F.rooted f.format.now f.volume.now) f.few };

    fn volume<D: Device>(&self, _device: &mut D) -> Result<(), WalkError> {
        Ok(())
    }

    fn entries(&self, _volume: &()) -> u32 {
        self.format.entries(self.volume)
    }

    fn root(&self, _volume: &(), file: u32) -> Link {
        if file != self.file {
            return Link::Null;
        }
        self.format.root(self.volume, file)
    }

    fn entry_at(&self, _volume: &(), file: u32) -> Holder {
        self.format.entry_at(self.volume, file)
    }

    fn is_free(&self, _volume: &(), _place: u32) -> bool {
        false
    }

    fn available(&self, _volume: &(), number: u32) -> Option<u32> {
        if number >= self.places {
            return None;
        }
        Some(number)
    }

    fn index(&self, _volume: &(), place: u32) -> Option<u32> {
        Some(place)
    }

    fn pointers(&self, part: &Part) -> u32 {
        self.format.pointers(part)
    }

    fn child(&self, _volume: &(), part: &Part, unit: &[u8], pointer: u32) -> Link {
        self.format.child(self.volume, part, unit, pointer)
    }
}
