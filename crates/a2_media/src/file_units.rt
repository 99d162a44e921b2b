// The units of a file as a device.
ghost use Rattle.std.specs.Prelude.{◌≡◌, ◌≤◌, ◌*◌, IsTrue};
ghost use Rattle.a2_device.specs.Device.{counted as counted_once};
ghost use Rattle.a2_media.specs.ImageDevice.{unit_bytes};
ghost use Rattle.a2_media.specs.FileDevice.{file_device_state};
ghost use Rattle.a2_media.specs.lemmas.Units.{whole_file};

use crate::UnitKind;
use crate::file::{FileFailure, PositionedFile};
use a2_device::{BLOCK_BYTES, Device, DeviceError};
use a2_image::SECTOR_BYTES;

/// The units of a file by place: the sectors of an image in DOS order, or the blocks of one in ProDOS order.
#[derive(Drop)]
pub struct FileDevice<F: PositionedFile> {
    file: F,
    kind: UnitKind,
    places: u32,
    writes: u64,
    faults: u64,
    ghost long: { unit_bytes kind * places ≡ (F.state file).size },
    ghost counted: { (F.state file).standing ≤ writes },
}

impl<F: PositionedFile> FileDevice<F> {
    /// The device of a file that has so many units and no more, and into which nothing was written.
    pub fn new(file: F, kind: UnitKind, places: u32) -> Self
        requires long { unit_bytes kind * places ≡ (F.state file).size }
        requires none { (F.state file).standing ≡ 0 }
        ensures state { ⟦<FileDevice<F> as Device>⟧.state result ≡ file_device_state kind places 0 0 (F.state file) }
        ensures file { result.file ≡ file }
    {
        FileDevice {
            file,
            kind,
            places,
            writes: 0,
            faults: 0,
        }
    }

    /// The file.
    pub fn file(&self) -> &F
        ensures { result.now ≡ self.now.file }
    {
        &self.file
    }

    /// The file.
    pub fn into_file(self) -> F
        ensures { result ≡ self.file }
    {
        let FileDevice { file, .. } = self;
        file
    }

    // One more refusal.
    fn fault(&mut self) -> DeviceError
        ensures fault { result ≡ DeviceError.Fault }
        ensures counted { let state = ⟦<FileDevice<F> as Device>⟧.state in
            state self.new ≡ record (state self.old) { faults = counted_once (state self.old).faults } }
    {
        self.faults = self.faults.saturating_add(1);
        DeviceError::Fault
    }
}

impl<F: PositionedFile> Device for FileDevice<F> {
    ghost state = { λ d. file_device_state d.kind d.places d.writes d.faults (F.state d.file) };

    ghost whole = { λ d h. whole_file d.kind d.places d.writes d.faults (F.state d.file) (F.whole d.file h) d.long };

    fn places(&self) -> u32 {
        self.places
    }

    fn unit(&self) -> usize {
        match self.kind {
            UnitKind::Sector => SECTOR_BYTES,
            UnitKind::Block => BLOCK_BYTES,
        }
    }

    fn writes(&self) -> u64 {
        self.writes
    }

    fn faults(&self) -> u64 {
        self.faults
    }

    fn read(&mut self, place: u32, unit: &mut [u8]) -> Result<(), DeviceError> {
        let position = place as u64 * self.unit() as u64;
        match self.file.read_whole(position, unit) {
            Ok(()) => Ok(()),
            Err(_) => Err(self.fault()),
        }
    }

    fn write(&mut self, place: u32, unit: &[u8]) -> Result<(), DeviceError> {
        if self.writes == u64::MAX {
            self.faults = self.faults.saturating_add(1);
            return Err(DeviceError::Spent);
        }
        let position = place as u64 * self.unit() as u64;
        self.writes += 1;
        match self.file.write_whole(position, unit) {
            Ok(()) => Ok(()),
            Err(FileFailure) => Err(self.fault()),
        }
    }
}
