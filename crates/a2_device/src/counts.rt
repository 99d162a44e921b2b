// What a device over another one counts itself.
ghost use Rattle.std.specs.Prelude.{◌≡◌, ◌+◌, min};
ghost use Rattle.a2_device.specs.Device.{last_count, counted};

// What it counts of its own, after one refusal of its own.
pub(crate) fn with_refusal(inner: u64, own: u64) -> u64
    ensures { min (inner + result) last_count ≡ counted (min (inner + own) last_count) }
{
    if inner.saturating_add(own) == u64::MAX {
        own
    } else {
        own + 1
    }
}
