// Units that are read, and marks made in them.
ghost use Rattle.std.specs.Prelude.{◌≡◌, ◌<◌, ℕ, length, All, Err, OnOk, IsErr, IsTrue, is_err};
ghost use Rattle.a2_device.specs.Device.{OnlyReads, unit_at};
ghost use Rattle.vol_laws.specs.Marked.{with_marks};
ghost use Rattle.vol_laws.specs.declared.mark.Mark.{Mark};

use crate::StepError;
use a2_device::Device;
use vol_format::WritableFormat;
use vol_laws::Mark;

// Reads a unit.
pub fn read_unit<D: Device>(device: &mut D, place: u32, unit: &mut [u8]) -> Result<(), StepError>
    requires place { place < (D.state device.old).places }
    requires unit { length unit.old ≡ (D.state device.old).unit_size }
    ensures device { OnlyReads (is_err result) (D.state device.old) (D.state device.new) }
    ensures error { IsErr result → result ≡ Err StepError.Read }
    ensures read { IsTrue (D.state device.old).honest
        → OnOk result (unit.new ≡ unit_at (D.state device.old).store place) }
{
    device.read(place, unit).map_err(|_| StepError::Read)
}

// Makes marks in a unit of the map, in turn.
pub fn make_marks<F: WritableFormat>(format: &F, unit: &mut [u8], marks: &[Mark])
    requires unit { length unit.old ≡ (F.meaning format.now).unit_size }
    requires places { (places : ℕ) × (F.meaning format.now).Takes places
        × All (λ (mark : Mark). mark.place < places) marks.now }
    ensures { unit.new ≡ with_marks (F.meaning format.now) unit.old marks.now }
{
    for mark in marks {
        if mark.free {
            format.release(unit, mark.place);
        } else {
            format.mark(unit, mark.place);
        }
    }
}
