// A part of the bytes of an image.
ghost use Rattle.std.specs.Prelude.{◌≡◌, ℕ, ◌+◌, ◌≤◌, ◌⊎◌, length, slice_range};

// Copies the bytes from `start` on.
pub(crate) fn copy_part(bytes: &[u8], start: usize, content: &mut [u8])
    requires { start + length content.old ≤ length bytes.now }
    ensures { content.new ≡ slice_range bytes.now start (start + length content.old) }
{
    let end = start + content.len();
    content.copy_from_slice(&bytes[start..end]);
}

// Writes these bytes over those from `start` on.
pub(crate) fn replace(bytes: &mut [u8], start: usize, content: &[u8])
    requires { start + length content.now ≤ length bytes.old }
    ensures written { slice_range bytes.new start (start + length content.now) ≡ content.now }
    ensures others { (from till : ℕ) → from ≤ till → (till ≤ start) ⊎ (start + length content.now ≤ from)
        → slice_range bytes.new from till ≡ slice_range bytes.old from till }
{
    bytes[start..start + content.len()].copy_from_slice(content);
}
