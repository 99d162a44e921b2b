// The pointers of an index.
ghost use Rattle.std.specs.Prelude.{◌≡◌, ◌<◌, length};
ghost use Rattle.pro_tree.specs.Pointers.{pointer_of, with_pointer};

/// Where the high bytes begin.
const HIGH_BYTES: usize = 256;

/// The block number of a pointer of an index or of a master index.
pub fn pointer(unit: &[u8], number: u32) -> u32
    requires unit { length unit.now ≡ 512 }
    requires number { number < 256 }
    ensures { result ≡ pointer_of unit.now number }
{
    let at = number as usize;
    unit[at] as u32 + 256 * unit[HIGH_BYTES + at] as u32
}

/// Writes a block number into a pointer of an index or of a master index; 0 names no block.
pub fn set_pointer(unit: &mut [u8], number: u32, block: u32)
    requires unit { length unit.old ≡ 512 }
    requires number { number < 256 }
    requires block { block < 65536 }
    ensures { unit.new ≡ with_pointer number block unit.old }
{
    let at = number as usize;
    unit[at] = (block % 256) as u8;
    unit[HIGH_BYTES + at] = (block / 256) as u8;
}
