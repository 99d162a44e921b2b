// The sectors or the blocks of an image as a device.
ghost use Rattle.std.specs.Prelude.{◌≡◌, ◌≤◌, length, Some};
ghost use Rattle.a2_image.specs.Image.{IsOfDisk};
ghost use Rattle.a2_image.specs.Blocks.{blocks};
ghost use Rattle.a2_device.specs.Device.{counted as counted_once};
ghost use Rattle.a2_media.specs.DosPlaces.{sectors_by_place};
ghost use Rattle.a2_media.specs.ImageDevice.{
  AreUnitsOf,
  HasUnits,
  image_state,
  place_count,
  unit_bytes,
  units_of,
  whole_image,
};
ghost use Rattle.a2_media.specs.Units.{AreUnits};

use crate::kinds::{bytes_of, places_of, read_unit, write_unit};
use crate::units::UnitKind;
use a2_device::{Device, DeviceError};
use a2_image::Image;
use std::alloc::{Allocator, Global};

/// The sectors of an image by DOS place, or its blocks.
#[derive(Drop)]
pub struct ImageDevice<A: Allocator = Global> {
    image: Image<A>,
    kind: UnitKind,
    writes: u64,
    standing: u64,
    faults: u64,
    ghost has: { HasUnits kind image },
    ghost units: { AreUnits (unit_bytes kind) (place_count kind image) (units_of kind image) },
    ghost counted: { standing ≤ writes },
}

impl<A: Allocator> ImageDevice<A> {
    /// The device of an image's 560 sectors by DOS place, with no write and no fault so far. The image is one of a
    /// disk, with 280 blocks.
    pub fn dos(image: Image<A>) -> Self
        requires { IsOfDisk image }
        ensures { ⟦<ImageDevice<A> as Device>⟧.state result ≡ image_state UnitKind.Sector image 0 0 0 }
    {
        // Called for what its contract says: the sectors of such an image are those of a disk.
        let _blocks = image.blocks();
        ImageDevice::over(image, UnitKind::Sector)
    }

    /// The device of an image's blocks of 512 bytes, 16 to 65,535, with no write and no fault so far.
    pub fn prodos(image: Image<A>) -> Self
        ensures { ⟦<ImageDevice<A> as Device>⟧.state result ≡ image_state UnitKind.Block image 0 0 0 }
    {
        // Called for what their contracts say: the sectors of an image of a disk are those of a disk, and another one
        // has whole blocks.
        let _blocks = image.blocks();
        let _order = image.order();
        ImageDevice::over(image, UnitKind::Block)
    }

    // The device of an image's units of one kind.
    fn over(image: Image<A>, kind: UnitKind) -> Self
        requires has { HasUnits kind image }
        requires units { AreUnits (unit_bytes kind) (place_count kind image) (units_of kind image) }
        ensures { ⟦<ImageDevice<A> as Device>⟧.state result ≡ image_state kind image 0 0 0 }
    {
        ImageDevice {
            image,
            kind,
            writes: 0,
            standing: 0,
            faults: 0,
        }
    }

    /// The image as it is now.
    pub fn into_image(self) -> Image<A>
        ensures form { (⟦<ImageDevice<A> as Device>⟧.state self).image
            ≡ Some (record { order = result.order; bytes = length result.bytes; kept = result.kept }) }
        ensures sectors { let state = ⟦<ImageDevice<A> as Device>⟧.state self in
            state.unit_size ≡ 256 → AreUnitsOf state (sectors_by_place result.sectors) }
        ensures blocks { let state = ⟦<ImageDevice<A> as Device>⟧.state self in
            state.unit_size ≡ 512 → AreUnitsOf state (blocks result) }
    {
        let ImageDevice { image, .. } = self;
        image
    }

    // One more refusal.
    fn fault(&mut self) -> DeviceError
        ensures fault { result ≡ DeviceError.Fault }
        ensures counted { let state = ⟦<ImageDevice<A> as Device>⟧.state in
            state self.new ≡ record (state self.old) { faults = counted_once (state self.old).faults } }
    {
        self.faults = self.faults.saturating_add(1);
        DeviceError::Fault
    }
}

impl<A: Allocator> Device for ImageDevice<A> {
    ghost state = { λ d. image_state d.kind d.image d.writes d.standing d.faults };

    ghost whole = { λ d _. whole_image d.kind d.image d.writes d.standing d.faults d.units };

    fn places(&self) -> u32 {
        places_of(&self.image, self.kind)
    }

    fn unit(&self) -> usize {
        bytes_of(self.kind)
    }

    fn writes(&self) -> u64 {
        self.writes
    }

    fn faults(&self) -> u64 {
        self.faults
    }

    fn read(&mut self, place: u32, unit: &mut [u8]) -> Result<(), DeviceError> {
        match read_unit(&self.image, self.kind, place, unit) {
            Ok(()) => Ok(()),
            Err(_) => Err(self.fault()),
        }
    }

    fn write(&mut self, place: u32, unit: &[u8]) -> Result<(), DeviceError> {
        if self.writes == u64::MAX {
            self.faults = self.faults.saturating_add(1);
            return Err(DeviceError::Spent);
        }
        self.writes += 1;
        if write_unit(&mut self.image, self.kind, place, unit).is_err() {
            return Err(self.fault());
        }
        self.standing += 1;
        Ok(())
    }
}
