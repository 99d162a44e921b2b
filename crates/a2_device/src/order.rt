// The orders in which an image may have its sectors.
ghost use Rattle.std.specs.Prelude.{◌≡◌, ◌<◌, ◌+◌, ◌*◌, ◌↔◌, IsTrue};
ghost use Rattle.a2_device.specs.Skew.{physical_of_dos, dos_of_physical, physical_of_half, half_of_physical};
ghost use Rattle.a2_device.specs.Order.{IsImageLength, blocks_of, in_track as place_in_track};

/// The tracks of a disk.
pub const TRACKS: u8 = 35;

/// The sectors of a track.
pub const SECTORS: u8 = 16;

/// The bytes of a block.
pub const BLOCK_BYTES: usize = 512;

/// The bytes of a disk image in DOS order, and of one of 280 blocks in ProDOS order.
pub const IMAGE_BYTES: usize = 143_360;

/// The bytes of an image in nibble order.
pub const NIBBLE_BYTES: usize = 232_960;

/// The blocks of a disk.
pub const DISK_BLOCKS: u32 = 280;

/// The order of the sectors in an image.
#[derive(Clone, Copy, Debug, PartialEq, Eq)]
pub enum Order {
    /// By track, then by the logical sector of DOS.
    Dos,
    /// By block. Such an image may have another number of blocks than a disk has.
    Prodos,
    /// By track, as the 6,656 disk bytes that a drive reads.
    Nibble,
}

static PHYSICAL_OF_DOS: [u8; 16] = [0, 13, 11, 9, 7, 5, 3, 1, 14, 12, 10, 8, 6, 4, 2, 15];

static DOS_OF_PHYSICAL: [u8; 16] = [0, 7, 14, 6, 13, 5, 12, 4, 11, 3, 10, 2, 9, 1, 8, 15];

// The halves of the blocks of a track, by the numbers that they have from 0 to 15.
static PHYSICAL_OF_HALF: [u8; 16] = [0, 2, 4, 6, 8, 10, 12, 14, 1, 3, 5, 7, 9, 11, 13, 15];

static HALF_OF_PHYSICAL: [u8; 16] = [0, 8, 1, 9, 2, 10, 3, 11, 4, 12, 5, 13, 6, 14, 7, 15];

#[tactic(auto, unfolding(crate::specs::Skew::physical_of_dos))]
/// The physical sector that DOS numbers `sector` (Beneath Apple DOS, chapter 3).
pub fn dos_to_phys(sector: u8) -> u8
    requires { sector < 16 }
    ensures value { result ≡ physical_of_dos sector }
    ensures fits { result < 16 }
{
    PHYSICAL_OF_DOS[usize::from(sector)]
}

#[tactic(auto, unfolding(crate::specs::Skew::physical_of_half))]
/// The two physical sectors of a block of a track, the first half's first (ProDOS 8 Technical Reference Manual,
/// Appendix B).
pub fn block_to_phys(block: u8) -> (u8, u8)
    requires { block < 8 }
    ensures front { result.0 ≡ physical_of_half (2 * block) }
    ensures rear { result.1 ≡ physical_of_half (2 * block + 1) }
    ensures fits { (result.0 < 16) × (result.1 < 16) }
{
    let half = 2 * usize::from(block);
    (PHYSICAL_OF_HALF[half], PHYSICAL_OF_HALF[half + 1])
}

#[tactic(auto, unfolding(crate::specs::Skew::dos_of_physical))]
// The number that DOS gives to a physical sector.
fn phys_to_dos(sector: u8) -> u8
    requires { sector < 16 }
    ensures value { result ≡ dos_of_physical sector }
    ensures fits { result < 16 }
{
    DOS_OF_PHYSICAL[usize::from(sector)]
}

#[tactic(auto, unfolding(crate::specs::Skew::half_of_physical))]
// The half of a block of the track that a physical sector is.
fn phys_to_half(sector: u8) -> u8
    requires { sector < 16 }
    ensures value { result ≡ half_of_physical sector }
    ensures fits { result < 16 }
{
    HALF_OF_PHYSICAL[usize::from(sector)]
}

impl Order {
    /// Whether an image in this order is of disk bytes.
    pub fn is_nibble(self) -> bool
        ensures { IsTrue result ↔ (self ≡ Order.Nibble) }
    {
        match self {
            Order::Nibble => true,
            Order::Dos | Order::Prodos => false,
        }
    }

    #[tactic(auto, unfolding(crate::specs::Order::IsImageLength))]
    /// Whether an image in this order may have so many bytes.
    pub fn takes(self, bytes: usize) -> bool
        ensures { IsTrue result ↔ IsImageLength self bytes }
    {
        match self {
            Order::Dos => bytes == IMAGE_BYTES,
            Order::Prodos => {
                bytes % BLOCK_BYTES == 0 && (512 * 16..=512 * 65535).contains(&bytes)
            }
            Order::Nibble => bytes == NIBBLE_BYTES,
        }
    }

    #[tactic(auto, unfolding(crate::specs::Order::IsImageLength, crate::specs::Order::blocks_of))]
    /// How many blocks an image of so many bytes has.
    pub fn blocks(self, bytes: usize) -> u32
        requires { IsImageLength self bytes }
        ensures { result ≡ blocks_of self bytes }
    {
        match self {
            Order::Dos | Order::Nibble => DISK_BLOCKS,
            Order::Prodos => (bytes / BLOCK_BYTES) as u32,
        }
    }

    #[tactic(auto, unfolding(crate::specs::Order::in_track))]
    /// How many sectors of its track lie before a physical sector.
    pub fn in_track(self, sector: u8) -> u8
        requires { sector < 16 }
        ensures value { result ≡ place_in_track self sector }
        ensures fits { result < 16 }
    {
        match self {
            Order::Dos => phys_to_dos(sector),
            Order::Prodos => phys_to_half(sector),
            Order::Nibble => sector,
        }
    }
}
