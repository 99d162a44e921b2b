// What always holds of jobs that leave something to their images.
ghost use Rattle.std.specs.Prelude.{◌≡◌, true};
ghost use Rattle.shop_jobs.specs.Input.{InputView, is_settled, settled};

use crate::input::Ways;

/// With the ways of its images a job leaves nothing to them; and one that leaves nothing to them stays as it is,
/// whatever ways they have.
pub fn ways_settle_a_job()
    ensures settled { (ways : Ways) (input : InputView) → is_settled (settled ways input) ≡ true }
    ensures kept { (ways : Ways) (input : InputView) → is_settled input ≡ true → settled ways input ≡ input }
{}
