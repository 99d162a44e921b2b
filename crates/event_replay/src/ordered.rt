// A device that fails to order alone, and meets each order to fail a write before another write comes through.
ghost use Rattle.std.specs.Prelude.{◌≡◌, false, IsFalse, IsTrue};
ghost use Rattle.a2_device.specs.Orders.{with_orders};
ghost use Rattle.event_replay.specs.Orders.{HasMetRead, HasNoReadOrder, MeetsOrders, NoneTried};
ghost use Rattle.event_replay.specs.Orders.{read_ordered, since, write_ordered};
ghost use Rattle.event_replay.specs.Unfailing.{HandsBack, unfailing};

use crate::unfailing::Unfailing;
use a2_device::{Device, DeviceError, FaultDevice};

// A device whose next read and next write can be ordered to fail.
pub(crate) trait FailsToOrder: Device {
    fn order_read(&mut self)
        ensures { Self.state self.new ≡ read_ordered (Self.state self.old) };

    fn order_write(&mut self, took: bool)
        ensures { Self.state self.new ≡ write_ordered took (Self.state self.old) };

    // Meets an order to fail a read, as a read would; whether there was one.
    fn meet_read_order(&mut self) -> bool
        ensures met { IsTrue result → HasMetRead (Self.state self.old) (Self.state self.new) }
        ensures none { IsFalse result → HasNoReadOrder (Self.state self.old) }
        ensures same { IsFalse result → Self.state self.new ≡ Self.state self.old };

    ghost meets_orders: { (device : Self) → MeetsOrders (Self.state device) };
}

/// Passes each call on to a device that fails to order.
#[derive(Drop)]
pub(crate) struct Ordered<D: Device> {
    device: FaultDevice<Unfailing<D>>,
    // Its count of writes when one was ordered to fail last.
    ordered_at: u64,
    ghost none_tried: { let unfailing = unfailing device.device.failed (D.state device.device.device) in
        let state = with_orders device.read_order device.write_order device.writes device.faults unfailing in
        NoneTried state.honest device.write_order ordered_at state.writes },
}

impl<D: Device> Ordered<D> {
    /// The device, over which no failure is ordered yet.
    pub fn new(device: D) -> Self
        ensures { ⟦<Ordered<D> as Device>⟧.state result ≡ since 0 (unfailing false (D.state device)) }
    {
        Ordered {
            device: FaultDevice::new(Unfailing::new(device)),
            ordered_at: 0,
        }
    }

    /// The device that calls were passed on to.
    pub fn into_inner(self) -> D
        ensures { HandsBack (⟦<Ordered<D> as Device>⟧.state self) (D.state result) }
    {
        let Ordered { device, .. } = self;
        device.into_inner().into_inner()
    }
}

impl<D: Device> Device for Ordered<D> {
    ghost use Rattle.event_replay.specs.lemmas.Tests.{first_test};

    ghost state = { λ s. since s.ordered_at (⟦<FaultDevice<Unfailing<D>> as Device>⟧.state s.device) };

    ghost whole = { λ s h. let whole = D.whole s.device.device.device (first_test _ _ h) in
        record { all = whole.all; units = whole.units } };

    fn places(&self) -> u32 {
        self.device.places()
    }

    fn unit(&self) -> usize {
        self.device.unit()
    }

    fn writes(&self) -> u64 {
        self.device.writes()
    }

    fn faults(&self) -> u64 {
        self.device.faults()
    }

    fn read(&mut self, place: u32, unit: &mut [u8]) -> Result<(), DeviceError> {
        self.device.read(place, unit)
    }

    fn write(&mut self, place: u32, unit: &[u8]) -> Result<(), DeviceError> {
        self.device.write(place, unit)
    }
}

impl<D: Device> FailsToOrder for Ordered<D> {
    ghost use Rattle.event_replay.specs.lemmas.Meeting.{orders_are_met};

    ghost meets_orders = { λ s. let within = s.device.device in
        orders_are_met s.device.read_order s.device.writes s.device.faults within.failed
        (D.state within.device) s.ordered_at
        s.device.write_order s.none_tried };

    fn order_read(&mut self) {
        self.device.fail_read();
    }

    fn order_write(&mut self, took: bool) {
        self.device.fail_write(took);
        self.ordered_at = self.device.writes();
    }

    fn meet_read_order(&mut self) -> bool {
        self.device.meet_read_order()
    }
}
