// Wrapping an image.
ghost use Rattle.std.specs.Prelude.{◌≡◌, ◌<◌, ◌≤◌, ◌+◌, ◌^◌, ◌↔◌, ◌++◌, IfOk, IsTrue, OnOk, length};
ghost use Rattle.disk_container.specs.Wrapped.{CanBeWrapped, comment_start, end_bytes, flags_of, header_bytes};
ghost use Rattle.disk_container.specs.Wrapped.{image_bytes, kind_bytes, protected_flag, top_bytes, volume_flags};
ghost use Rattle.disk_container.specs.Wrapped.{wrapped_bytes};

use crate::error::WrapError;
use crate::numbers::{push_u16, push_u32};
use crate::order::{blocks_of, format_of};
use a2_device::Order;
use std::alloc::{AllocError, Allocator};

// The bytes of a header, behind which the image begins.
const HEADER: u16 = 64;

// The most bytes of a comment, which leave a file of the longest image short enough.
const MOST_COMMENT: usize = 65_472;

// The flag of an image that is not to be written.
fn protected_flag(protect: bool) -> u32
    ensures value { result ≡ protected_flag protect }
    ensures fits { result ≤ 2 ^ 31 }
{
    if protect { 0x8000_0000 } else { 0 }
}

// The flags that have a volume number, where there is one.
fn volume_flags(volume: Option<u8>) -> u32
    ensures value { result ≡ volume_flags volume }
    ensures fits { result < 512 }
{
    match volume {
        Some(volume) => 0x100 + u32::from(volume),
        None => 0,
    }
}

#[tactic(auto, unfolding(a2_device::specs::Order::IsImageLength))]
// Whether an image of the order may have so many bytes, and a comment of so many leaves the file short enough.
fn can_be_wrapped(order: Order, size: usize, comment: usize) -> bool
    ensures value { IsTrue result ↔ CanBeWrapped order size comment }
    ensures short { IsTrue result → (size < 2 ^ 31) × (comment < 2 ^ 31) }
{
    order.takes(size) && comment <= MOST_COMMENT
}

// Where a comment of so many bytes begins, behind an image; 0 where there is none.
fn comment_start(size: u32, comment: u32) -> u32
    requires { size < 2 ^ 31 }
    ensures { result ≡ comment_start size comment }
{
    if comment == 0 {
        0
    } else {
        u32::from(HEADER) + size
    }
}

// Puts what a header begins with behind a file.
fn push_top<A: Allocator>(file: &mut Vec<u8, A>) -> Result<(), AllocError>
    ensures { OnOk result (file.new.items ≡ file.old.items ++ top_bytes) }
{
    file.extend_from_slice(b"2IMGA2SH")?;
    push_u16(file, HEADER)?;
    push_u16(file, 1)
}

// Puts order and flags of an image, and its blocks, behind a file.
fn push_kind<A: Allocator>(
    file: &mut Vec<u8, A>,
    order: Order,
    volume: Option<u8>,
    protect: bool,
    size: u32,
) -> Result<(), AllocError>
    ensures { OnOk result (file.new.items ≡ file.old.items ++ kind_bytes order volume protect size) }
{
    push_u32(file, format_of(order))?;
    push_u32(file, protected_flag(protect) + volume_flags(volume))?;
    push_u32(file, blocks_of(order, size))
}

// Puts what a header says of an image behind a file.
fn push_image<A: Allocator>(
    file: &mut Vec<u8, A>,
    order: Order,
    volume: Option<u8>,
    protect: bool,
    size: u32,
) -> Result<(), AllocError>
    ensures { OnOk result (file.new.items ≡ file.old.items ++ image_bytes order volume protect size) }
{
    push_kind(file, order, volume, protect, size)?;
    push_u32(file, u32::from(HEADER))?;
    push_u32(file, size)
}

// Puts the end of a header, which says where a comment stands, behind a file.
fn push_end<A: Allocator>(file: &mut Vec<u8, A>, size: u32, comment: u32) -> Result<(), AllocError>
    requires { size < 2 ^ 31 }
    ensures { OnOk result (file.new.items ≡ file.old.items ++ end_bytes size comment) }
{
    push_u32(file, comment_start(size, comment))?;
    push_u32(file, comment)?;
    file.extend_from_slice(&[0; 24])
}

// Puts a header behind a file.
fn push_header<A: Allocator>(
    file: &mut Vec<u8, A>,
    order: Order,
    volume: Option<u8>,
    protect: bool,
    size: u32,
    comment: u32,
) -> Result<(), AllocError>
    requires { size < 2 ^ 31 }
    ensures { OnOk result (file.new.items ≡ file.old.items ++ header_bytes order volume protect size comment) }
{
    push_top(file)?;
    push_image(file, order, volume, protect, size)?;
    push_end(file, size, comment)
}

// The container of an image that may be wrapped.
fn wrapped<A: Allocator>(
    alloc: A,
    order: Order,
    volume: Option<u8>,
    comment: &[u8],
    protect: bool,
    payload: &[u8],
) -> Result<Vec<u8, A>, AllocError>
    requires short { length payload.now < 2 ^ 31 }
    requires few { length comment.now < 2 ^ 32 }
    ensures { IfOk result (λ file. file.items ≡ wrapped_bytes order volume comment.now protect payload.now) }
{
    let mut file = Vec::with_capacity(alloc, usize::from(HEADER) + payload.len() + comment.len())?;
    push_header(
        &mut file,
        order,
        volume,
        protect,
        payload.len() as u32,
        comment.len() as u32,
    )?;
    file.extend_from_slice(payload)?;
    file.extend_from_slice(comment)?;
    Ok(file)
}

/// The container of an image: a header of 64 bytes, the image, and the comment, where there is one.
///
/// # Errors
/// `Length` where no image of the order has so many bytes, or the comment has more than 65,472; `Memory` for want of
/// memory.
pub fn wrap<A: Allocator>(
    alloc: A,
    order: Order,
    volume: Option<u8>,
    comment: &[u8],
    protect: bool,
    payload: &[u8],
) -> Result<Vec<u8, A>, WrapError>
    ensures file { IfOk result (λ file. file.items ≡ wrapped_bytes order volume comment.now protect payload.now) }
    ensures fits { OnOk result (CanBeWrapped order (length payload.now) (length comment.now)) }
    ensures refused { result ≡ Err WrapError.Length ↔ ¬ CanBeWrapped order (length payload.now) (length comment.now) }
{
    if !can_be_wrapped(order, payload.len(), comment.len()) {
        return Err(WrapError::Length);
    }
    Ok(wrapped(alloc, order, volume, comment, protect, payload)?)
}
