// Fields of a unit, and units of an image.
ghost use Rattle.std.specs.Prelude.{◌≡◌, ◌≤◌, ◌<◌, ◌+◌, length};
ghost use Rattle.a2_image.specs.Lending.{written};
ghost use Rattle.pro_dir.specs.Writes.{with_bytes, word_bytes};

use byteorder::{ByteOrder, LittleEndian};

// Writes a field into a unit.
pub(crate) fn put(unit: &mut [u8], at: usize, bytes: &[u8])
    requires { at + length bytes.now ≤ length unit.old }
    ensures { unit.new ≡ with_bytes at bytes.now unit.old }
{
    unit[at..at + bytes.len()].copy_from_slice(bytes);
}

// Writes a number of two bytes into a unit.
pub(crate) fn put_word(unit: &mut [u8], at: usize, number: u16)
    requires { at + 2 ≤ length unit.old }
    ensures { unit.new ≡ with_bytes at (word_bytes number) unit.old }
{
    let mut bytes = [0; 2];
    LittleEndian::write_u16(&mut bytes, number);
    put(unit, at, &bytes);
}

// Writes a unit over the bytes of an image from one on.
pub(crate) fn put_unit(image: &mut [u8], at: usize, unit: &[u8])
    requires { at + length unit.now ≤ length image.old }
    ensures { image.new ≡ written image.old at unit.now }
{
    image[at..at + unit.len()].copy_from_slice(unit);
}
