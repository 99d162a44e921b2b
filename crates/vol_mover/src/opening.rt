// What is known of a volume before its parts are moved.
ghost use Rattle.std.specs.Prelude.{
  ◌≡◌,
  ◌⊎◌,
  ◌↔◌,
  ◌<◌,
  ℕ,
  true,
  false,
  [],
  IsTrue,
  IsFalse,
  IfOk,
  IfErr,
  OnOk,
  Contains,
  length,
};
ghost use Rattle.a2_device.specs.Device.{OnlyReads};
ghost use Rattle.vol_format.specs.Fits.{Fits};
ghost use Rattle.vol_format.specs.Accepted.{IsAccepted};
ghost use Rattle.vol_format.specs.Reach.{IsPartsOf};
ghost use Rattle.vol_format.specs.Standing.{IsLost};
ghost use Rattle.vol_check.specs.Told.{told_of, volume_of};
ghost use Rattle.vol_mover.specs.Opening.{Tells, IsToldIn, IsPlanOf, IsAllowed, told_in};
ghost use Rattle.vol_mover.specs.Refused.{is_device_error, IsRefusal, RefusesTold};

use crate::OpenError;
use a2_device::{Device, Part};
use move_plan::{Plan, plan};
use std::alloc::{Allocator, Global};
use vol_check::{Checked, check};
use vol_format::Format;
use vol_layout::Layout;

/// What the owner allows.
#[derive(Clone, Copy)]
pub struct Options {
    /// Lost places are marked free.
    pub reclaim: bool,
}

/// What is known of a volume before its parts are moved: its header, directory and map, its parts in order, where these
/// stand among the available places, which of these places are lost, and the plan.
#[derive(Drop)]
pub struct Opening<V: Drop, A: Allocator = Global> {
    pub volume: V,
    pub parts: Vec<Part, A>,
    pub layout: Layout<A>,
    pub lost: Vec<u32, A>,
    pub plan: Plan<A>,
}

// Whether places that are lost are none, or are reclaimed.
fn may_be_lost(options: Options, lost: &[u32]) -> bool
    ensures yes { IsTrue result → (options.reclaim ≡ true) ⊎ (lost.now ≡ []) }
    ensures no { IsFalse result → (options.reclaim ≡ false) × (0 < length lost.now) }
{
    options.reclaim || lost.is_empty()
}

// The plan of a volume that is accepted.
fn planned<V: Drop, A: Allocator + Copy>(
    alloc: A,
    checked: Checked<V, A>,
    options: Options,
) -> Result<Opening<V, A>, OpenError<A>>
    requires { length (told_of checked).lost < 4294967296 }
    ensures volume { IfOk result (λ opening. opening.volume ≡ volume_of checked) }
    ensures told { IfOk result (λ opening. Tells (told_of checked) opening) }
    ensures plan { IfOk result (λ opening. IsPlanOf (told_of checked).layout opening.plan) }
    ensures allowed { OnOk result (IsAllowed options (told_of checked)) }
    ensures refused { IfErr result (RefusesTold options (told_of checked)) }
{
    let (volume, parts, layout, lost) = checked.into_parts();
    if !may_be_lost(options, lost.as_slice()) {
        return Err(OpenError::Lost(lost.len() as u32));
    }
    let plan = plan(alloc, &layout)?;
    Ok(Opening {
        volume,
        parts,
        layout,
        lost,
        plan,
    })
}

impl<V: Drop, A: Allocator + Copy> Opening<V, A> {
    /// Opens a volume. It makes no write.
    ///
    /// # Errors
    /// The first of these that holds: `Check` with every fault that was met; `Lost` with how many places are lost,
    /// where they are not reclaimed; `NoFreePlace` where some part is misplaced and each available place has a part.
    /// `Device` where a read fails; `Memory`.
    pub fn read<D: Device, F: Format<Volume = V>>(
        alloc: A,
        device: &mut D,
        format: &F,
        options: Options,
    ) -> Result<Opening<V, A>, OpenError<A>>
        requires fits { Fits (F.meaning format.now) (D.state device.old) }

        // every device
        ensures device { OnlyReads (is_device_error result) (D.state device.old) (D.state device.new) }
        ensures places { IfOk result (λ opening. (F.directory format.now opening.volume).places
            ≡ (D.state device.old).places) }
        ensures told { IfOk result (λ opening. IsToldIn (F.directory format.now opening.volume) opening) }
        ensures plan { IfOk result (λ opening. IsPlanOf opening.layout opening.plan) }
        ensures allowed { IfOk result (λ opening.
            IsAllowed options (told_in (F.directory format.now opening.volume) opening)) }

        // an honest device
        ensures accepted { IsTrue (D.state device.old).honest
            → IfOk result (λ opening.
            IsAccepted (F.meaning format.now) (F.directory format.now opening.volume) (D.state device.old).store) }
        ensures parts { IsTrue (D.state device.old).honest
            → IfOk result (λ opening. IsPartsOf (F.meaning format.now) (F.directory format.now opening.volume)
            (D.state device.old).store opening.parts.items) }
        ensures lost { IsTrue (D.state device.old).honest
            → IfOk result (λ opening. (place : ℕ) → Contains opening.lost.items place
            ↔ IsLost (F.meaning format.now) (F.directory format.now opening.volume) (D.state device.old).store place) }
        ensures refused { IsTrue (D.state device.old).honest
            → IfErr result (IsRefusal (F.meaning format.now) (D.state device.old).store options) }
    {
        let checked = check(alloc, device, format)?;
        planned(alloc, checked, options)
    }
}
