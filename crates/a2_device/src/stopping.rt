// A device that passes so many writes on and then refuses each.
ghost use Rattle.std.specs.Prelude.{◌≡◌};
ghost use Rattle.a2_device.specs.Orders.{stopped, at_most, HasSameUnits};

use crate::counts::with_refusal;
use crate::{Device, DeviceError};

/// Passes a number of writes on; then every write is a fault that leaves the old unit.
#[derive(Drop)]
pub struct StopDevice<D: Device> {
    device: D,
    passes: u64,
    // What it refused without asking the device.
    writes: u64,
    faults: u64,
}

impl<D: Device> StopDevice<D> {
    /// The device, of which `passes` writes are passed on.
    pub fn new(device: D, passes: u64) -> Self
        ensures passes { result ≡ record { device = device; passes = passes; writes = 0; faults = 0 } }
        ensures state { let state = D.state device in
            ⟦<StopDevice<D> as Device>⟧.state result ≡ record state { passes = at_most passes state.passes } }
    {
        // Called for what their contracts say: the counts of a device fit their type.
        let _writes = device.writes();
        let _faults = device.faults();
        StopDevice {
            device,
            passes,
            writes: 0,
            faults: 0,
        }
    }

    /// The device that calls were passed on to.
    pub fn into_inner(self) -> D
        ensures device { result ≡ self.device }
        ensures units { HasSameUnits (⟦<StopDevice<D> as Device>⟧.state self) (D.state result) }
    {
        let StopDevice { device, .. } = self;
        device
    }
}

impl<D: Device> Device for StopDevice<D> {
    ghost state = { λ s. stopped s.passes s.writes s.faults (D.state s.device) };

    ghost whole = { λ s h. record { all = (D.whole s.device h).all; units = (D.whole s.device h).units } };

    fn places(&self) -> u32 {
        self.device.places()
    }

    fn unit(&self) -> usize {
        self.device.unit()
    }

    fn writes(&self) -> u64 {
        self.device.writes().saturating_add(self.writes)
    }

    fn faults(&self) -> u64 {
        self.device.faults().saturating_add(self.faults)
    }

    fn read(&mut self, place: u32, unit: &mut [u8]) -> Result<(), DeviceError> {
        self.device.read(place, unit)
    }

    fn write(&mut self, place: u32, unit: &[u8]) -> Result<(), DeviceError> {
        if self.writes() == u64::MAX {
            self.faults = with_refusal(self.device.faults(), self.faults);
            return Err(DeviceError::Spent);
        }
        if self.passes == 0 {
            self.writes += 1;
            self.faults = with_refusal(self.device.faults(), self.faults);
            return Err(DeviceError::Fault);
        }
        self.passes -= 1;
        self.device.write(place, unit)
    }
}
