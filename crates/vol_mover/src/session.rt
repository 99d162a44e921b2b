// A session over a device.
ghost use Rattle.std.specs.Prelude.{
  ◌≡◌,
  ◌<◌,
  ℕ,
  ◌+◌,
  [],
  ◌∷◌,
  List,
  Some,
  length,
  true,
  false,
  OnOk,
  OnErr,
  IsErr,
  Ok,
  Err,
  IsTrue,
};
ghost use Rattle.a2_device.specs.Device.{IsSameDevice, faults_after, written};
ghost use Rattle.vol_mover.specs.Agenda.{next_write};
ghost use Rattle.vol_mover.specs.Tasks.{Course, Task, place_of};
ghost use Rattle.vol_mover.specs.declared.write.Write.TheVariants.{
  Map as MapWrite,
  Copy as CopyWrite,
  Pointer as PointerWrite,
};
ghost use Rattle.vol_layout.specs.Plans.{IsLegal};
ghost use Rattle.vol_layout.specs.declared.moves.Move.{Move};
ghost use Rattle.vol_mover.specs.Present.{HasCourse};
ghost use Rattle.vol_mover.specs.Shown.{present};
ghost use Rattle.vol_mover.specs.Steps.{HasFinished, IsStep, Prepares, RefusesWrite, advanced, kind_of};

use crate::units::{make_marks, read_unit};
use crate::{Agenda, Progress, StepError, Write, Wrote};
use a2_device::{Device, Part};
use std::alloc::{Allocator, Global};
use vol_format::WritableFormat;
use vol_layout::{Layout, Move};

/// A session over a volume: the device, what was read of it, and the writes that are still to be made.
#[derive(Drop)]
pub struct Session<'a, D: Device, F: WritableFormat, A: Allocator = Global> {
    pub(crate) device: D,
    pub(crate) format: &'a F,
    pub(crate) volume: F::Volume,
    pub(crate) parts: Vec<Part, A>,
    pub(crate) layout: Layout<A>,
    pub(crate) agenda: Agenda<A>,
    pub(crate) map_writes: u32,
    pub(crate) moves: u32,
    pub(crate) lost_at_first: u32,
    pub(crate) closed: bool,
    pub(crate) unit: Vec<u8, A>,
}

impl<'a, D: Device, F: WritableFormat, A: Allocator> Session<'a, D, F, A> {
    /// Makes the next write, if one is left and none has failed.
    ///
    /// # Errors
    /// `Closed` exactly where a write has failed before. `Read` where a unit can't be read: nothing was written, and
    /// the same step may be tried again. `Write` where the write failed: the old unit or the new one stands, and the
    /// session is closed.
    pub fn step(&mut self) -> Result<Progress, StepError>
        requires { HasCourse (F.meaning self.old.format.now) (present D.state F.directory self.old) }
        ensures only { self.new ≡ record self.old {
          device = self.new.device;
          layout = self.new.layout;
          agenda = self.new.agenda;
          map_writes = self.new.map_writes;
          moves = self.new.moves;
          closed = self.new.closed;
          unit = self.new.unit;
        } }
        ensures step { IsStep (F.meaning self.old.format.now) (present D.state F.directory self.old)
            (present D.state F.directory self.new) result }
        ensures session { HasCourse (F.meaning self.new.format.now) (present D.state F.directory self.new) }
        ensures done { result ≡ Ok Progress.Done
            → HasFinished (F.meaning self.new.format.now) (present D.state F.directory self.new) }
    {
        if self.closed {
            return Err(StepError::Closed);
        }
        match self.agenda.next() {
            Some(write) => self.make(write),
            None => Ok(Progress::Done),
        }
    }

    // Makes the next write.
    fn make(&mut self, write: Write) -> Result<Progress, StepError>
        requires session { HasCourse (F.meaning self.old.format.now) (present D.state F.directory self.old) }
        requires opened { self.old.closed ≡ false }
        requires next { next_write self.old.agenda ≡ Some write }
        ensures only { self.new ≡ record self.old {
          device = self.new.device;
          layout = self.new.layout;
          agenda = self.new.agenda;
          map_writes = self.new.map_writes;
          moves = self.new.moves;
          closed = self.new.closed;
          unit = self.new.unit;
        } }
        ensures step { IsStep (F.meaning self.old.format.now) (present D.state F.directory self.old)
            (present D.state F.directory self.new) result }
    {
        let place = self.prepare(write)?;
        self.write(place)?;
        Ok(Progress::Wrote(self.advance(write)))
    }

    // Reads the unit that the next write needs and changes it; the place to which it goes.
    fn prepare(&mut self, write: Write) -> Result<u32, StepError>
        requires session { HasCourse (F.meaning self.old.format.now) (present D.state F.directory self.old) }
        requires next { next_write self.old.agenda ≡ Some write }
        ensures only { self.new ≡ record self.old { device = self.new.device; unit = self.new.unit } }
        ensures prepares { Prepares (F.meaning self.old.format.now) (present D.state F.directory self.old)
            (present D.state F.directory self.new) result }
    {
        match write {
            Write::Map(at) => self.prepare_map(at),
            Write::Copy(step) => self.prepare_copy(step),
            Write::Pointer(step) => self.prepare_pointer(step),
        }
    }

    // The map's unit with the marks of the next write.
    fn prepare_map(&mut self, at: u32) -> Result<u32, StepError>
        requires session { HasCourse (F.meaning self.old.format.now) (present D.state F.directory self.old) }
        requires next { next_write self.old.agenda ≡ Some (MapWrite at) }
        ensures only { self.new ≡ record self.old { device = self.new.device; unit = self.new.unit } }
        ensures prepares { Prepares (F.meaning self.old.format.now) (present D.state F.directory self.old)
            (present D.state F.directory self.new) result }
    {
        read_unit(&mut self.device, at, &mut self.unit)?;
        make_marks(self.format, &mut self.unit, self.agenda.marks());
        Ok(at)
    }

    // The unit of the part that moves next, for the place to which it goes.
    fn prepare_copy(&mut self, step: Move) -> Result<u32, StepError>
        requires session { HasCourse (F.meaning self.old.format.now) (present D.state F.directory self.old) }
        requires next { next_write self.old.agenda ≡ Some (CopyWrite step) }
        ensures only { self.new ≡ record self.old { device = self.new.device; unit = self.new.unit } }
        ensures prepares { Prepares (F.meaning self.old.format.now) (present D.state F.directory self.old)
            (present D.state F.directory self.new) result }
    {
        let from = self.place(self.layout.at()[step.part as usize]);
        let to = self.place(step.to);
        read_unit(&mut self.device, from, &mut self.unit)?;
        Ok(to)
    }

    // The unit that holds the pointer to the part that moves next, with the pointer naming the copy.
    fn prepare_pointer(&mut self, step: Move) -> Result<u32, StepError>
        requires session { HasCourse (F.meaning self.old.format.now) (present D.state F.directory self.old) }
        requires next { next_write self.old.agenda ≡ Some (PointerWrite step) }
        ensures only { self.new ≡ record self.old { device = self.new.device; unit = self.new.unit } }
        ensures prepares { Prepares (F.meaning self.old.format.now) (present D.state F.directory self.old)
            (present D.state F.directory self.new) result }
    {
        let to = self.place(step.to);
        let holder = self
            .format
            .holder(&self.volume, &self.parts, &self.layout, step.part);
        read_unit(&mut self.device, holder.place, &mut self.unit)?;
        self.format.put_pointer(&mut self.unit, holder, to);
        Ok(holder.place)
    }

    // Writes the unit, and closes the session where that fails.
    fn write(&mut self, place: u32) -> Result<(), StepError>
        requires place { place < (D.state self.old.device).places }
        requires unit { length self.old.unit.items ≡ (D.state self.old.device).unit_size }
        ensures device { IsSameDevice (D.state self.old.device) (D.state self.new.device) }
        ensures faults { (D.state self.new.device).faults ≡ faults_after result (D.state self.old.device).faults }
        ensures ok { OnOk result (self.new ≡ record self.old { device = self.new.device }) }
        ensures closed { OnErr result (self.new ≡ record self.old { device = self.new.device; closed = true }) }
        ensures error { IsErr result → result ≡ Err StepError.Write }
        ensures written { IsTrue (D.state self.old.device).honest
            → OnOk result (D.state self.new.device ≡ written place self.old.unit.items (D.state self.old.device)) }
        ensures refused { IsTrue (D.state self.old.device).honest
            → IsErr result → RefusesWrite place self.old.unit.items (D.state self.old.device)
            (D.state self.new.device) }
    {
        let written = self.device.write(place, &self.unit);
        if written.is_err() {
            self.closed = true;
            return Err(StepError::Write);
        }
        Ok(())
    }

    // Takes note of the write that was made.
    fn advance(&mut self, write: Write) -> Wrote
        requires next { next_write self.old.agenda ≡ Some write }
        requires legal { (move : Move) → write ≡ PointerWrite move
            → IsLegal self.old.layout.at self.old.layout.places move }
        requires counted { self.old.map_writes + self.old.moves + 1 < 4294967296 }
        ensures only { self.new ≡ record self.old {
          layout = self.new.layout;
          agenda = self.new.agenda;
          map_writes = self.new.map_writes;
          moves = self.new.moves;
        } }
        ensures kind { (task : Task) (rest : List Task) → self.old.agenda ≡ task ∷ rest → result ≡ kind_of task }
        ensures advanced { (task : Task) (rest : List Task) → self.old.agenda ≡ task ∷ rest
            → present D.state F.directory self.new ≡ advanced (present D.state F.directory self.old) task rest }
    {
        self.agenda.advance();
        match write {
            Write::Map(_) => {
                self.map_writes += 1;
                Wrote::Map
            }
            Write::Copy(_) => Wrote::Copy,
            Write::Pointer(step) => {
                if self.layout.apply(step).is_err() {
                    unreachable!();
                }
                self.moves += 1;
                Wrote::Pointer
            }
        }
    }

    // The place of a number.
    fn place(&self, number: u32) -> u32
        requires { number < length (F.directory self.now.format.now self.now.volume).available }
        ensures is { result ≡ place_of (F.directory self.now.format.now self.now.volume) number }
        ensures inside { result < (F.directory self.now.format.now self.now.volume).places }
    {
        match self.format.available(&self.volume, number) {
            Some(place) => place,
            None => unreachable!(),
        }
    }
}
