// A session without its device.
ghost use Rattle.std.specs.Prelude.{◌≡◌};
ghost use Rattle.a2_device.specs.Device.{DeviceState};
ghost use Rattle.vol_mover.specs.Tasks.{Course};
ghost use Rattle.vol_mover.specs.Present.{IsSession};
ghost use Rattle.vol_mover.specs.Resuming.{CanResume};
ghost use Rattle.vol_mover.specs.Shown.{present, resumed};

use crate::{Agenda, Session};
use a2_device::{Device, Part};
use std::alloc::{Allocator, Global};
use vol_format::WritableFormat;
use vol_layout::Layout;

/// A session without its device, which can go on over a device of the same store.
#[derive(Drop)]
pub struct Paused<'a, F: WritableFormat, A: Allocator = Global> {
    format: &'a F,
    volume: F::Volume,
    parts: Vec<Part, A>,
    layout: Layout<A>,
    agenda: Agenda<A>,
    map_writes: u32,
    moves: u32,
    lost_at_first: u32,
    closed: bool,
    unit: Vec<u8, A>,
}

impl<'a, D: Device, F: WritableFormat, A: Allocator> Session<'a, D, F, A> {
    /// Hands out the device, and the rest of the session. Nothing is read or written.
    pub fn pause(self) -> (D, Paused<'a, F, A>)
        ensures device { result.0 ≡ self.entry.device }
        ensures format { result.1.format.now ≡ self.entry.format.now }
        ensures same { (device : DeviceState) → resumed F.directory device result.1
            ≡ record (present D.state F.directory self.entry) { device = device } }
    {
        let Session {
            device,
            format,
            volume,
            parts,
            layout,
            agenda,
            map_writes,
            moves,
            lost_at_first,
            closed,
            unit,
        } = self;
        let paused = Paused {
            format,
            volume,
            parts,
            layout,
            agenda,
            map_writes,
            moves,
            lost_at_first,
            closed,
            unit,
        };
        (device, paused)
    }
}

impl<'a, F: WritableFormat, A: Allocator> Paused<'a, F, A> {
    /// The same session again, over a device with the store of the one that was handed out. Nothing is read or written.
    pub fn resume<D: Device>(self, device: D) -> Session<'a, D, F, A>
        ensures device { result.device ≡ device }
        ensures format { result.format.now ≡ self.entry.format.now }
        ensures same { present D.state F.directory result ≡ resumed F.directory (D.state device) self.entry }
        ensures session { (old : DeviceState) (course : Course) → CanResume old (D.state device)
            → IsSession (F.meaning self.entry.format.now) (resumed F.directory old self.entry) course
            → IsSession (F.meaning self.entry.format.now) (present D.state F.directory result) course }
    {
        let Paused {
            format,
            volume,
            parts,
            layout,
            agenda,
            map_writes,
            moves,
            lost_at_first,
            closed,
            unit,
        } = self;
        Session {
            device,
            format,
            volume,
            parts,
            layout,
            agenda,
            map_writes,
            moves,
            lost_at_first,
            closed,
            unit,
        }
    }
}
