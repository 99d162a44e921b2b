// The sectors or the blocks of a lent image as a device that only reads.
ghost use Rattle.std.specs.Prelude.{◌≡◌};
ghost use Rattle.a2_image.specs.Image.{IsOfDisk};
ghost use Rattle.a2_device.specs.Device.{counted as counted_once};
ghost use Rattle.a2_media.specs.ImageDevice.{HasUnits, place_count, unit_bytes, units_of};
ghost use Rattle.a2_media.specs.LentDevice.{lent_state, whole_lent};
ghost use Rattle.a2_media.specs.Units.{AreUnits};

use crate::kinds::{bytes_of, places_of, read_unit};
use crate::units::UnitKind;
use a2_device::{Device, DeviceError};
use a2_image::Image;
use std::alloc::{Allocator, Global};

/// The sectors of a lent image by DOS place, or its blocks, to be read alone: each write is refused.
#[derive(Drop)]
pub struct LentDevice<'a, A: Allocator = Global> {
    image: &'a Image<A>,
    kind: UnitKind,
    writes: u64,
    faults: u64,
    ghost has: { HasUnits kind image.now },
    ghost units: { AreUnits (unit_bytes kind) (place_count kind image.now) (units_of kind image.now) },
}

impl<'a, A: Allocator> LentDevice<'a, A> {
    /// The device of a lent image's 560 sectors by DOS place, with no write and no fault so far. The image is one of a
    /// disk, with 280 blocks.
    pub fn dos(image: &'a Image<A>) -> Self
        requires { IsOfDisk image.now }
        ensures { ⟦<LentDevice<'a, A> as Device>⟧.state result ≡ lent_state UnitKind.Sector image.now 0 0 }
    {
        // Called for what its contract says: the sectors of such an image are those of a disk.
        let _blocks = image.blocks();
        LentDevice::over(image, UnitKind::Sector)
    }

    /// The device of a lent image's blocks of 512 bytes, 16 to 65,535, with no write and no fault so far.
    pub fn prodos(image: &'a Image<A>) -> Self
        ensures { ⟦<LentDevice<'a, A> as Device>⟧.state result ≡ lent_state UnitKind.Block image.now 0 0 }
    {
        // Called for what their contracts say: the sectors of an image of a disk are those of a disk, and another one
        // has whole blocks.
        let _blocks = image.blocks();
        let _order = image.order();
        LentDevice::over(image, UnitKind::Block)
    }

    // The device of a lent image's units of one kind.
    fn over(image: &'a Image<A>, kind: UnitKind) -> Self
        requires has { HasUnits kind image.now }
        requires units { AreUnits (unit_bytes kind) (place_count kind image.now) (units_of kind image.now) }
        ensures { ⟦<LentDevice<'a, A> as Device>⟧.state result ≡ lent_state kind image.now 0 0 }
    {
        LentDevice {
            image,
            kind,
            writes: 0,
            faults: 0,
        }
    }

    // One more refusal.
    fn fault(&mut self) -> DeviceError
        ensures fault { result ≡ DeviceError.Fault }
        ensures counted { let state = ⟦<LentDevice<'a, A> as Device>⟧.state in
            state self.new ≡ record (state self.old) { faults = counted_once (state self.old).faults } }
    {
        self.faults = self.faults.saturating_add(1);
        DeviceError::Fault
    }
}

impl<A: Allocator> Device for LentDevice<'_, A> {
    ghost state = { λ d. lent_state d.kind d.image.now d.writes d.faults };

    ghost whole = { λ d _. whole_lent d.kind d.image.now d.writes d.faults d.units };

    fn places(&self) -> u32 {
        places_of(self.image, self.kind)
    }

    fn unit(&self) -> usize {
        bytes_of(self.kind)
    }

    fn writes(&self) -> u64 {
        self.writes
    }

    fn faults(&self) -> u64 {
        self.faults
    }

    fn read(&mut self, place: u32, unit: &mut [u8]) -> Result<(), DeviceError> {
        match read_unit(self.image, self.kind, place, unit) {
            Ok(()) => Ok(()),
            Err(_) => Err(self.fault()),
        }
    }

    fn write(&mut self, _place: u32, _unit: &[u8]) -> Result<(), DeviceError> {
        if self.writes == u64::MAX {
            self.faults = self.faults.saturating_add(1);
            return Err(DeviceError::Spent);
        }
        self.writes += 1;
        Err(self.fault())
    }
}
