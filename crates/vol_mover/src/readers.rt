// What is left of a session's work.
ghost use Rattle.std.specs.Prelude.{◌≡◌, length};
ghost use Rattle.vol_mover.specs.Tasks.{Course, moves_of};
ghost use Rattle.vol_layout.specs.Rings.{IsDeficit};
ghost use Rattle.vol_mover.specs.Present.{IsSession};
ghost use Rattle.vol_mover.specs.Shown.{present};

use crate::Session;
use a2_device::Device;
use std::alloc::Allocator;
use vol_format::WritableFormat;

impl<'a, D: Device, F: WritableFormat, A: Allocator> Session<'a, D, F, A> {
    /// How many moves are left: the deficit of the layout, and once a write has failed, of the layout before it.
    pub fn moves_left(&self) -> u32
        ensures moves { result ≡ length (moves_of self.now.agenda) }
        ensures deficit { (course : Course)
            → IsSession (F.meaning self.now.format.now) (present D.state F.directory self.now) course
            → IsDeficit self.now.layout.at result }
    {
        self.agenda.moves_left()
    }

    /// How many writes are left.
    pub fn writes_left(&self) -> usize
        ensures { result ≡ length self.now.agenda }
    {
        self.agenda.len()
    }

    /// Whether a write has failed, after which no other is made.
    pub fn is_closed(&self) -> bool
        ensures { result ≡ self.now.closed }
    {
        self.closed
    }

    /// The device.
    pub fn into_device(self) -> D
        ensures { result ≡ self.entry.device }
    {
        let Session { device, .. } = self;
        device
    }
}
