// The text of a file's parts.
ghost use Rattle.std.specs.Prelude.{◌≡◌, ◌<◌, ◌-◌, ◌*◌, ◌++◌, length, replicate, All, IfOk, OnOk, IsTrue};
ghost use Rattle.a2_device.specs.Device.{FailsRead, OnlyReads, unit_at};
ghost use Rattle.a2_device.specs.declared.part.Part.{Part};
ghost use Rattle.a2_device.specs.Stop.{is_device_stop};
ghost use Rattle.file_cmds.specs.ReadingOn.{FailsAmong};
ghost use Rattle.file_cmds.specs.Text.{whole_text};
ghost use Rattle.file_cmds.specs.Walked.{stored_of, number_after, text_with};

use a2_device::{Device, Part, PartKind, Stop};
use std::alloc::{AllocError, Allocator};

// Puts so many units of zeros behind a text.
fn add_zeros<A: Allocator>(
    text: &mut Vec<u8, A>,
    zeros: &[u8],
    count: u64,
) -> Result<(), AllocError>
    requires { zeros.now ≡ replicate (length zeros.now) 0 }
    ensures { OnOk result (text.new.items ≡ text.old.items ++ replicate (count * length zeros.now) 0) }
{
    for _ in 0..count {
        text.extend_from_slice(zeros)?;
    }
    Ok(())
}

// Puts the unit of a part behind a text, and before it zeros for each number from the next one on that is left out.
fn add_unit<D: Device, A: Allocator>(
    device: &mut D,
    part: Part,
    next: u64,
    zeros: &[u8],
    unit: &mut [u8],
    text: &mut Vec<u8, A>,
) -> Result<(), Stop>
    requires place { part.place < (D.state device.old).places }
    requires unit { length unit.old ≡ (D.state device.old).unit_size }
    requires zeros { zeros.now ≡ replicate (D.state device.old).unit_size 0 }

    ensures device { OnlyReads (is_device_stop result) (D.state device.old) (D.state device.new) }
    ensures text { IsTrue (D.state device.old).honest → OnOk result (text.new.items
        ≡ text.old.items ++ (replicate ((part.number - next) * (D.state device.old).unit_size) 0
        ++ unit_at (D.state device.old).store part.place)) }
    ensures failed { IsTrue (D.state device.old).honest → IsTrue (is_device_stop result)
        → FailsRead part.place (D.state device.old) (D.state device.new) }
{
    add_zeros(text, zeros, u64::from(part.number).saturating_sub(next))?;
    device.read(part.place, unit).map_err(|_| Stop::Device)?;
    text.extend_from_slice(unit)?;
    Ok(())
}

// Puts the unit of a part of the body behind a text; the number that comes next.
fn add_part<D: Device, A: Allocator>(
    device: &mut D,
    part: Part,
    next: u64,
    zeros: &[u8],
    unit: &mut [u8],
    text: &mut Vec<u8, A>,
) -> Result<u64, Stop>
    requires place { part.place < (D.state device.old).places }
    requires unit { length unit.old ≡ (D.state device.old).unit_size }
    requires zeros { zeros.now ≡ replicate (D.state device.old).unit_size 0 }

    ensures device { OnlyReads (is_device_stop result) (D.state device.old) (D.state device.new) }
    ensures next { IfOk result (λ after. after ≡ number_after part next) }
    ensures text { IsTrue (D.state device.old).honest
        → OnOk result (text.new.items
        ≡ text_with (D.state device.old).unit_size (D.state device.old).store part next text.old.items) }
    ensures failed { IsTrue (D.state device.old).honest → IsTrue (is_device_stop result)
        → FailsRead part.place (D.state device.old) (D.state device.new) }
{
    if part.kind != PartKind::Body {
        return Ok(next);
    }
    add_unit(device, part, next, zeros, unit, text)?;
    Ok(u64::from(part.number) + 1)
}

/// The whole text of a file that has these parts, in their order.
pub fn text_of<D: Device, A: Allocator + Copy>(
    alloc: A,
    device: &mut D,
    parts: &[Part],
) -> Result<Vec<u8, A>, Stop>
    requires { All (λ (part : Part). part.place < (D.state device.old).places) parts.now }

    ensures device { OnlyReads (is_device_stop result) (D.state device.old) (D.state device.new) }
    ensures text { IsTrue (D.state device.old).honest → IfOk result (λ text. text.items
        ≡ whole_text (D.state device.old).unit_size (stored_of (D.state device.old).store parts.now)) }
    ensures failed { IsTrue (D.state device.old).honest → IsTrue (is_device_stop result)
        → FailsAmong parts.now (D.state device.old) (D.state device.new) }
{
    let zeros = vec![in alloc; 0; device.unit()]?;
    let mut unit = vec![in alloc; 0; device.unit()]?;
    let mut text = Vec::new(alloc);
    let mut next = 0;
    for part in parts {
        next = add_part(device, *part, next, &zeros, &mut unit, &mut text)?;
    }
    Ok(text)
}
