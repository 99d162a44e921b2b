// Steps one after the other.
ghost use Rattle.std.specs.Prelude.{◌≡◌, ℕ};
ghost use Rattle.vol_mover.specs.Tasks.{Course};
ghost use Rattle.vol_mover.specs.Present.{HasCourse};
ghost use Rattle.vol_mover.specs.Runs.{RunsTo};
ghost use Rattle.vol_mover.specs.Shown.{present};

use crate::{Progress, Session, StepError};
use a2_device::Device;
use std::alloc::Allocator;
use vol_format::WritableFormat;

impl<'a, D: Device, F: WritableFormat, A: Allocator> Session<'a, D, F, A> {
    // Makes so many writes, or all that are left.
    pub(crate) fn run(&mut self, limit: u64) -> Result<(), StepError>
        requires { HasCourse (F.meaning self.old.format.now) (present D.state F.directory self.old) }
        ensures only { self.new ≡ record self.old {
          device = self.new.device;
          layout = self.new.layout;
          agenda = self.new.agenda;
          map_writes = self.new.map_writes;
          moves = self.new.moves;
          closed = self.new.closed;
          unit = self.new.unit;
        } }
        ensures run { RunsTo (F.meaning self.old.format.now) limit (present D.state F.directory self.old)
            (present D.state F.directory self.new) result }
        ensures session { HasCourse (F.meaning self.new.format.now) (present D.state F.directory self.new) }
    {
        let mut made = 0;
        while made < limit {
            match self.step()? {
                Progress::Wrote(_) => made += 1,
                Progress::Done => return Ok(()),
            }
        }
        Ok(())
    }
}
