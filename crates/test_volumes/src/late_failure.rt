// A device of which one call fails after so many others.
ghost use Rattle.std.specs.Prelude.{◌≡◌};
ghost use Rattle.a2_device.specs.Orders.{HasSameUnits};
ghost use Rattle.test_volumes.specs.Unbounded.{unbounded};

use a2_device::{Device, DeviceError, FaultDevice};
use a2_media::ImageDevice;

/// Passes calls on, but for one read or one write, which fails: the one after so many others of its kind.
#[derive(Drop)]
pub struct LateFailure<D: Device> {
    device: FaultDevice<D>,
    // How many reads are passed on before the one that fails.
    reads: Option<u64>,
    // How many writes are, and whether the new unit stands that the failing one was to write.
    writes: Option<(u64, bool)>,
}

impl<D: Device> LateFailure<D> {
    /// The device, of which the read after `before` others is a fault.
    pub fn read(device: D, before: u64) -> Self
        ensures { ⟦<LateFailure<D> as Device>⟧.state result ≡ unbounded (D.state device) }
    {
        LateFailure {
            device: FaultDevice::new(device),
            reads: Some(before),
            writes: None,
        }
    }

    /// The device, of which the write after `before` others is a fault; `took` says whether its new unit stands.
    pub fn write(device: D, before: u64, took: bool) -> Self
        ensures { ⟦<LateFailure<D> as Device>⟧.state result ≡ unbounded (D.state device) }
    {
        LateFailure {
            device: FaultDevice::new(device),
            reads: None,
            writes: Some((before, took)),
        }
    }

    /// The device that calls were passed on to.
    pub fn into_inner(self) -> D
        ensures { HasSameUnits (⟦<LateFailure<D> as Device>⟧.state self) (D.state result) }
    {
        let LateFailure { device, .. } = self;
        device.into_inner()
    }

    // Counts a read, and orders its failure where its turn has come.
    fn count_read(&mut self)
        ensures { let state = ⟦<LateFailure<D> as Device>⟧.state in state self.new ≡ state self.old }
    {
        match self.reads {
            Some(0) => {
                self.device.fail_read();
                self.reads = None;
            }
            Some(before) => self.reads = Some(before - 1),
            None => {}
        }
    }

    // Counts a write, and orders its failure where its turn has come.
    fn count_write(&mut self)
        ensures { let state = ⟦<LateFailure<D> as Device>⟧.state in state self.new ≡ state self.old }
    {
        match self.writes {
            Some((0, took)) => {
                self.device.fail_write(took);
                self.writes = None;
            }
            Some((before, took)) => self.writes = Some((before - 1, took)),
            None => {}
        }
    }
}

impl<D: Device> Device for LateFailure<D> {
    ghost state = { λ s. unbounded (⟦<FaultDevice<D> as Device>⟧.state s.device) };

    ghost whole = { λ s h. record
        { all = (D.whole s.device.device h).all; units = (D.whole s.device.device h).units } };

    fn places(&self) -> u32 {
        self.device.places()
    }

    fn unit(&self) -> usize {
        self.device.unit()
    }

    fn writes(&self) -> u64 {
        self.device.writes()
    }

    fn faults(&self) -> u64 {
        self.device.faults()
    }

    fn read(&mut self, place: u32, unit: &mut [u8]) -> Result<(), DeviceError> {
        self.count_read();
        self.device.read(place, unit)
    }

    fn write(&mut self, place: u32, unit: &[u8]) -> Result<(), DeviceError> {
        self.count_write();
        self.device.write(place, unit)
    }
}

/// The call that fails: a read, or a write, of which `took` says whether its new unit stands.
#[derive(Clone, Copy)]
pub enum Failure {
    Read,
    Write { took: bool },
}

/// The device with this failure after so many calls.
pub fn late(device: ImageDevice, failure: Failure, before: u64) -> LateFailure<ImageDevice>
    ensures unit { (⟦<LateFailure<ImageDevice> as Device>⟧.state result).unit_size
        ≡ (⟦<ImageDevice as Device>⟧.state device).unit_size }
    ensures places { (⟦<LateFailure<ImageDevice> as Device>⟧.state result).places
        ≡ (⟦<ImageDevice as Device>⟧.state device).places }
{
    match failure {
        Failure::Read => LateFailure::read(device, before),
        Failure::Write { took } => LateFailure::write(device, before, took),
    }
}
