ghost use Rattle.std.specs.Prelude.{◌+◌, ◌≤◌, length};
ghost use Rattle.a2_nibble.specs.Copy.{Copies};

/// Copies bytes over those from a place on.
pub fn copy_to(to: &mut [u8], place: usize, bytes: &[u8])
    requires { place + length bytes.now ≤ length to.old }
    ensures { Copies to.old to.new place bytes.now }
{
    to[place..place + bytes.len()].copy_from_slice(bytes);
}
