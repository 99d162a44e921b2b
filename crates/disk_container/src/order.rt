// What the order of an image says of it in a header.
ghost use Rattle.std.specs.Prelude.{◌≡◌, ◌<◌, ◌^◌};
ghost use Rattle.disk_container.specs.Order.{blocks_of, format_of, whole_size};

use a2_device::{BLOCK_BYTES, IMAGE_BYTES, NIBBLE_BYTES, Order};

/// The number of an order in a header.
pub(crate) fn format_of(order: Order) -> u32
    ensures { result ≡ format_of order }
{
    match order {
        Order::Dos => 0,
        Order::Prodos => 1,
        Order::Nibble => 2,
    }
}

/// The length of an image of which a header tells no length, but so many blocks.
pub(crate) fn whole_size(order: Order, blocks: u32) -> u64
    ensures value { result ≡ whole_size order blocks }
    ensures fits { result < 2 ^ 42 }
{
    match order {
        Order::Dos => IMAGE_BYTES as u64,
        Order::Prodos => BLOCK_BYTES as u64 * u64::from(blocks),
        Order::Nibble => NIBBLE_BYTES as u64,
    }
}

/// The blocks that a header tells of an image of so many bytes.
pub(crate) fn blocks_of(order: Order, bytes: u32) -> u32
    ensures { result ≡ blocks_of order bytes }
{
    match order {
        Order::Dos | Order::Nibble => 0,
        Order::Prodos => bytes / BLOCK_BYTES as u32,
    }
}
