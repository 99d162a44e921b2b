// A device that fails nothing by itself.
ghost use Rattle.std.specs.Prelude.{◌≡◌, false};
ghost use Rattle.event_replay.specs.Unfailing.{unfailing};

use a2_device::{Device, DeviceError};

/// Passes each call on. Nothing is known of it once the device in it has failed; until then, each of the writes that it
/// counts stands.
#[derive(Drop)]
pub(crate) struct Unfailing<D: Device> {
    device: D,
    failed: bool,
}

impl<D: Device> Unfailing<D> {
    /// The device, which has failed nothing yet.
    pub fn new(device: D) -> Self
        ensures { ⟦<Unfailing<D> as Device>⟧.state result ≡ unfailing false (D.state device) }
    {
        Unfailing {
            device,
            failed: false,
        }
    }

    /// The device that calls were passed on to.
    pub fn into_inner(self) -> D
        ensures { result ≡ self.device }
    {
        let Unfailing { device, .. } = self;
        device
    }
}

impl<D: Device> Device for Unfailing<D> {
    ghost use Rattle.event_replay.specs.lemmas.Tests.{first_test};

    ghost state = { λ s. unfailing s.failed (D.state s.device) };

    ghost whole = { λ s h. let honest = first_test _ _ h in record
        { all = (D.whole s.device honest).all; units = (D.whole s.device honest).units } };

    fn places(&self) -> u32 {
        self.device.places()
    }

    fn unit(&self) -> usize {
        self.device.unit()
    }

    fn writes(&self) -> u64 {
        self.device.writes()
    }

    fn faults(&self) -> u64 {
        self.device.faults()
    }

    fn read(&mut self, place: u32, unit: &mut [u8]) -> Result<(), DeviceError> {
        let read = self.device.read(place, unit);
        self.failed = self.failed || read.is_err();
        read
    }

    fn write(&mut self, place: u32, unit: &[u8]) -> Result<(), DeviceError> {
        let written = self.device.write(place, unit);
        self.failed = self.failed || written == Err(DeviceError::Fault);
        written
    }
}
