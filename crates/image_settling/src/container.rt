// The container that an image stands in.
ghost use Rattle.std.specs.Prelude.{◌≡◌, ◌↔◌, IfErr, IfOk, IsTrue, OnErr};
ghost use Rattle.image_settling.specs.Opening.{IsOpened, IsReadAsContainer, RefusesContainer};

use crate::unsettled::Unsettled;
use disk_container::{Container, Shell, begins_like_container, container_of, take_shell};
use shop_jobs::OrderSaid;
use std::alloc::Global;

/// The container in which an image stands.
#[derive(Drop)]
pub struct OpenContainer {
    /// What it says.
    pub says: Container,
    /// What stands around the image.
    pub shell: Shell,
}

// Whether bytes are read as a container.
fn is_container(order: OrderSaid, is_bare: bool, bytes: &[u8]) -> bool
    ensures { IsTrue result ↔ IsReadAsContainer order is_bare bytes.now }
{
    match order {
        OrderSaid::ByContainer => true,
        OrderSaid::ByReading => !is_bare && begins_like_container(bytes),
        OrderSaid::Is(_) => false,
    }
}

/// Takes the image out of bytes that are read as a container: where its order is to be found by that, or by a reading
/// of an image that may stand in one, which begins like one. A bare image stands in none.
///
/// # Errors
/// `Refused` with what is wrong with bytes that are no container, `Memory` for want of memory; the bytes are as they
/// were then.
pub fn open_container(
    alloc: Global,
    order: OrderSaid,
    is_bare: bool,
    bytes: &mut Vec<u8>,
) -> Result<Option<OpenContainer>, Unsettled>
    ensures opened { IfOk result (IsOpened order is_bare bytes.old.items bytes.new.items) }
    ensures refused { IfErr result (RefusesContainer order is_bare bytes.old.items) }
    ensures kept { OnErr result (bytes.new.items ≡ bytes.old.items) }
{
    if !is_container(order, is_bare, bytes.as_slice()) {
        return Ok(None);
    }
    let says = container_of(bytes.as_slice())?;
    let shell = take_shell(alloc, bytes, says)?;
    Ok(Some(OpenContainer { says, shell }))
}
