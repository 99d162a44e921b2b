// A device whose next read or write fails to order.
ghost use Rattle.std.specs.Prelude.{◌≡◌, ◌<◌, Some, None, false, true, [], ◌∷◌, length, IsTrue, IsFalse};
ghost use Rattle.a2_device.specs.Device.{MeetsReadFailure, OnlyReads};
ghost use Rattle.a2_device.specs.Met.{ReadsToOrder, WritesToOrder};
ghost use Rattle.a2_device.specs.Orders.{with_orders, HasSameUnits};
ghost use Rattle.a2_device.specs.Writes.{Reads, Writes};

use crate::counts::with_refusal;
use crate::{Device, DeviceError};

/// Passes calls on, but for the next read and the next write where they were ordered to fail. An order to fail a write
/// whose new unit stands is met by the first write that the device takes.
#[derive(Drop)]
pub struct FaultDevice<D: Device> {
    device: D,
    read_order: bool,
    write_order: Option<bool>,
    // What it refused without asking the device.
    writes: u64,
    faults: u64,
}

impl<D: Device> FaultDevice<D> {
    /// The device with no failure ordered.
    pub fn new(device: D) -> Self
        ensures orders { result
            ≡ record { device = device; read_order = false; write_order = None; writes = 0; faults = 0 } }
        ensures state { ⟦<FaultDevice<D> as Device>⟧.state result ≡ D.state device }
    {
        // Called for what their contracts say: the counts of a device fit their type.
        let _writes = device.writes();
        let _faults = device.faults();
        FaultDevice {
            device,
            read_order: false,
            write_order: None,
            writes: 0,
            faults: 0,
        }
    }

    /// The next read is a fault, however often it is ordered.
    pub fn fail_read(&mut self)
        ensures orders { self.new ≡ record self.old { read_order = true } }
        ensures ordered { let state = ⟦<FaultDevice<D> as Device>⟧.state in
            (state self.old).read_failures ≡ Some 0 → (state self.new).read_failures ≡ Some 1 }
        ensures rest { let state = ⟦<FaultDevice<D> as Device>⟧.state in
            state self.new ≡ record (state self.old) { read_failures = (state self.new).read_failures } }
    {
        self.read_order = true;
    }

    /// The next write is a fault; `took` says whether the new unit stands. A later order takes the place of an earlier
    /// one.
    pub fn fail_write(&mut self, took: bool)
        ensures orders { self.new ≡ record self.old { write_order = Some took } }
        ensures ordered { let state = ⟦<FaultDevice<D> as Device>⟧.state in
            (state self.old).write_failures ≡ Some [] → (state self.new).write_failures ≡ Some (took ∷ []) }
        ensures rest { let state = ⟦<FaultDevice<D> as Device>⟧.state in
            state self.new ≡ record (state self.old) { write_failures = (state self.new).write_failures } }
    {
        self.write_order = Some(took);
    }

    /// Meets the order to fail a read, as the next read would at any place, and asks nothing of the device within;
    /// whether there was one.
    pub fn meet_read_order(&mut self) -> bool
        ensures ordered { result ≡ self.old.read_order }
        ensures met { IsTrue result → self.new ≡ record self.old { read_order = false; faults = self.new.faults } }
        ensures none { IsFalse result → self.new ≡ self.old }
        ensures failed { let state = ⟦<FaultDevice<D> as Device>⟧.state in
            IsTrue result → MeetsReadFailure (state self.old) (state self.new) }
        ensures reads { let state = ⟦<FaultDevice<D> as Device>⟧.state in
            OnlyReads result (state self.old) (state self.new) }
    {
        if !self.read_order {
            return false;
        }
        self.read_order = false;
        self.faults = with_refusal(self.device.faults(), self.faults);
        true
    }

    /// The device that calls were passed on to.
    pub fn into_inner(self) -> D
        ensures device { result ≡ self.device }
        ensures units { HasSameUnits (⟦<FaultDevice<D> as Device>⟧.state self) (D.state result) }
    {
        let FaultDevice { device, .. } = self;
        device
    }

    // Passes a write on, or refuses it where that was ordered or the count of writes is at its last value.
    fn write_as_ordered(&mut self, place: u32, unit: &[u8]) -> Result<(), DeviceError>
        requires place { place < (D.state self.old.device).places }
        requires unit { length unit.now ≡ (D.state self.old.device).unit_size }
        ensures writes { let state = ⟦<FaultDevice<D> as Device>⟧.state in
            Writes place unit.now result (state self.old) (state self.new) }
        ensures to_order { WritesToOrder D.state self.old self.new place unit.now result }
    {
        if self.writes() == u64::MAX {
            self.faults = with_refusal(self.device.faults(), self.faults);
            return Err(DeviceError::Spent);
        }
        match self.write_order {
            None => self.device.write(place, unit),
            Some(took) => {
                if took {
                    self.device.write(place, unit)?;
                } else {
                    self.writes += 1;
                }
                self.write_order = None;
                self.faults = with_refusal(self.device.faults(), self.faults);
                Err(DeviceError::Fault)
            }
        }
    }
}

impl<D: Device> Device for FaultDevice<D> {
    ghost state = { λ s. with_orders s.read_order s.write_order s.writes s.faults (D.state s.device) };

    ghost whole = { λ s h. record { all = (D.whole s.device h).all; units = (D.whole s.device h).units } };

    fn places(&self) -> u32 {
        self.device.places()
    }

    fn unit(&self) -> usize {
        self.device.unit()
    }

    fn writes(&self) -> u64 {
        self.device.writes().saturating_add(self.writes)
    }

    fn faults(&self) -> u64 {
        self.device.faults().saturating_add(self.faults)
    }

    /// Meets the order to fail, or is passed on.
    fn read(&mut self, place: u32, unit: &mut [u8]) -> Result<(), DeviceError>
        requires place { place < (D.state self.old.device).places }
        requires unit { length unit.old ≡ (D.state self.old.device).unit_size }
        ensures reads { let state = ⟦<FaultDevice<D> as Device>⟧.state in
            Reads place unit.new result (state self.old) (state self.new) }
        ensures to_order { ReadsToOrder D.state self.old self.new result }
    {
        if self.meet_read_order() {
            return Err(DeviceError::Fault);
        }
        self.device.read(place, unit)
    }

    /// Meets the order to fail, or is passed on.
    fn write(&mut self, place: u32, unit: &[u8]) -> Result<(), DeviceError>
        requires place { place < (D.state self.old.device).places }
        requires unit { length unit.now ≡ (D.state self.old.device).unit_size }
        ensures writes { let state = ⟦<FaultDevice<D> as Device>⟧.state in
            Writes place unit.now result (state self.old) (state self.new) }
        ensures to_order { WritesToOrder D.state self.old self.new place unit.now result }
    {
        self.write_as_ordered(place, unit)
    }
}
