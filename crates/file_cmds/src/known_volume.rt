// A volume that was read, so that the checker walks over it without reading its header, directory and map again.
ghost use Rattle.file_cmds.specs.KnownVolume.{of_known};

use a2_device::{Device, Part, WalkError};
use vol_format::{Format, Holder, Link};

/// A format with one volume, which was read.
#[derive(Drop)]
pub struct KnownVolume<'a, F: Format> {
    pub format: &'a F,
    pub volume: &'a F::Volume,
}

impl<F: Format> Format for KnownVolume<'_, F> {
    ghost use Rattle.file_cmds.specs.lemmas.KnownVolume.{known_is_readable, known_is_directory};

    type Volume = ();

    ghost meaning = { λ f. of_known (F.meaning f.format.now) (F.directory f.format.now f.volume.now) };

    ghost directory = { λ f v. F.directory f.format.now f.volume.now };

    ghost readable = { λ f. known_is_readable (F.meaning f.format.now) (F.directory f.format.now f.volume.now)
        (F.readable f.format.now) };

    ghost rooted = { λ f v. known_is_directory (F.meaning f.format.now) (F.directory f.format.now f.volume.now)
        (F.rooted f.format.now f.volume.now) };

    fn volume<D: Device>(&self, _device: &mut D) -> Result<(), WalkError> {
        Ok(())
    }

    fn entries(&self, _volume: &()) -> u32 {
        self.format.entries(self.volume)
    }

    fn root(&self, _volume: &(), file: u32) -> Link {
        self.format.root(self.volume, file)
    }

    fn entry_at(&self, _volume: &(), file: u32) -> Holder {
        self.format.entry_at(self.volume, file)
    }

    fn is_free(&self, _volume: &(), place: u32) -> bool {
        self.format.is_free(self.volume, place)
    }

    fn available(&self, _volume: &(), number: u32) -> Option<u32> {
        self.format.available(self.volume, number)
    }

    fn index(&self, _volume: &(), place: u32) -> Option<u32> {
        self.format.index(self.volume, place)
    }

    fn pointers(&self, part: &Part) -> u32 {
        self.format.pointers(part)
    }

    fn child(&self, _volume: &(), part: &Part, unit: &[u8], pointer: u32) -> Link {
        self.format.child(self.volume, part, unit, pointer)
    }
}
