// The header of a container.
ghost use Rattle.std.specs.Prelude.{◌≡◌, ◌≤◌, ◌<◌, ◌^◌, ◌==◌, ◌⊎◌, ◌↔◌, IfErr, IfNone, IfOk, IfSome, IsTrue, length};
ghost use Rattle.std.specs.Int.{bit_at};
ghost use Rattle.a2_device.specs.declared.order.Order.{Order};
ghost use Rattle.disk_container.specs.Container.{HasHeader, HoldsData, IsOfOrder};
ghost use Rattle.disk_container.specs.Faults.{IsFault};
ghost use Rattle.disk_container.specs.Format.{BeginsLikeContainer, header_of, image_size, volume_of};

use crate::error::ContainerFault;
use crate::numbers::{u16_at, u32_at};
use crate::order::whole_size;
use a2_device::Order;

/// The most bytes of a container: those of the longest image, and 65,536 around it.
pub const MOST_BYTES: usize = 33_553_920 + 65_536;

// The bytes of a header in some old files, and of all others.
const OLD_HEADER: u16 = 52;

const NEW_HEADER: u16 = 64;

/// The bit of the flags that says that the image is not to be written.
pub(crate) const PROTECTED: u32 = 31;

// The bit of the flags that says that they have a volume number.
const NUMBERED: u32 = 8;

/// The numbers of a header that tell of its image.
#[derive(Clone, Copy)]
pub(crate) struct Header {
    /// How many bytes the header has.
    pub(crate) size: u16,
    /// The number of the order.
    pub(crate) format: u32,
    pub(crate) flags: u32,
    /// How many blocks the image has, in ProDOS order.
    pub(crate) blocks: u32,
    /// Where the data begin in the file.
    pub(crate) data_start: u32,
    /// How many bytes they have, or 0 where they are those of the whole image.
    pub(crate) data_size: u32,
}

/// Whether bytes begin with `2IMG`.
pub(crate) fn begins(bytes: &[u8]) -> bool
    ensures { IsTrue result ↔ BeginsLikeContainer bytes.now }
{
    bytes.starts_with(b"2IMG")
}

// The numbers that stand where those of a header do.
fn numbers_of(bytes: &[u8]) -> Header
    requires { 52 ≤ length bytes.now }
    ensures { result ≡ header_of bytes.now }
{
    Header {
        size: u16_at(bytes, 0x08),
        format: u32_at(bytes, 0x0c),
        flags: u32_at(bytes, 0x10),
        blocks: u32_at(bytes, 0x14),
        data_start: u32_at(bytes, 0x18),
        data_size: u32_at(bytes, 0x1c),
    }
}

/// The header that bytes begin with, where they are not too many.
///
/// # Errors
/// `Magic` where they do not begin with `2IMG`, `Length` where they are too many, `Header` where the header has another
/// length than 52 or 64 bytes, or is cut short.
pub(crate) fn header_of(bytes: &[u8]) -> Result<Header, ContainerFault>
    ensures value { IfOk result (λ header. header ≡ header_of bytes.now) }
    ensures header { IfOk result (λ _. HasHeader bytes.now) }
    ensures fault { IfErr result (IsFault bytes.now) }
{
    if !begins(bytes) {
        return Err(ContainerFault::Magic);
    }
    if bytes.len() > MOST_BYTES {
        return Err(ContainerFault::Length);
    }
    if bytes.len() < usize::from(OLD_HEADER) {
        return Err(ContainerFault::Header);
    }
    let header = numbers_of(bytes);
    if !header.is_whole(bytes.len()) {
        return Err(ContainerFault::Header);
    }
    Ok(header)
}

impl Header {
    // Whether the header has one of its two lengths, and a file of so many bytes has all of it.
    fn is_whole(self, bytes: usize) -> bool
        ensures { IsTrue result ↔ (((self.size ≡ 52) ⊎ (self.size ≡ 64)) × (self.size ≤ bytes)) }
    {
        (self.size == OLD_HEADER || self.size == NEW_HEADER) && usize::from(self.size) <= bytes
    }

    /// The order of the image.
    pub(crate) fn order(self) -> Option<Order>
        ensures some { IfSome result (IsOfOrder self) }
        ensures none { IfNone result ((order : Order) → ¬ IsOfOrder self order) }
    {
        match self.format {
            0 => Some(Order::Dos),
            1 => Some(Order::Prodos),
            2 => Some(Order::Nibble),
            _ => None,
        }
    }

    /// How many bytes an image of this order has.
    pub(crate) fn image_size(self, order: Order) -> u64
        ensures value { result ≡ image_size order self }
        ensures fits { result < 2 ^ 42 }
    {
        if self.data_size == 0 {
            return whole_size(order, self.blocks);
        }
        u64::from(self.data_size)
    }

    /// Whether the data, an image of this order, lie behind the header and wholly inside a file of so many bytes.
    pub(crate) fn holds_data(self, order: Order, bytes: usize) -> bool
        ensures { IsTrue result ↔ HoldsData self order bytes }
    {
        let start = u64::from(self.data_start);
        u64::from(self.size) <= start && start + self.image_size(order) <= bytes as u64
    }

    /// Whether a bit of the flags is set.
    pub(crate) fn has(self, bit: u32) -> bool
        requires { bit < 32 }
        ensures { result ≡ (bit_at self.flags bit == 1) }
    {
        (self.flags >> bit) % 2 == 1
    }

    /// The volume number of DOS 3.3, where the flags have one.
    pub(crate) fn volume(self) -> Option<u8>
        ensures { result ≡ volume_of self.flags }
    {
        if self.has(NUMBERED) {
            return Some((self.flags % 256) as u8);
        }
        None
    }
}
