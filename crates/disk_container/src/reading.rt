// Which files are containers.
ghost use Rattle.std.specs.Prelude.{◌↔◌, IfErr, IfOk, IsTrue};
ghost use Rattle.disk_container.specs.Container.{IsContainer};
ghost use Rattle.disk_container.specs.Faults.{IsFault};
ghost use Rattle.disk_container.specs.Format.{BeginsLikeContainer};

use crate::container::Container;
use crate::error::ContainerFault;
use crate::header::{PROTECTED, begins, header_of};

/// Whether a file begins as a container does, with `2IMG`.
pub fn begins_like_container(bytes: &[u8]) -> bool
    ensures { IsTrue result ↔ BeginsLikeContainer bytes.now }
{
    begins(bytes)
}

/// What a container says of the image in it, and where that stands.
///
/// # Errors
/// The first of these that is wrong: `Magic` where the file does not begin with `2IMG`; `Length` where it is longer
/// than the longest image and 65,536 bytes; `Header` where its header has another length than 52 or 64 bytes, or is cut
/// short; `Format` where that tells no order; `Data` where the data do not lie behind the header and wholly inside the
/// file; `Length` where no image of the order has so many bytes.
pub fn container_of(bytes: &[u8]) -> Result<Container, ContainerFault>
    ensures container { IfOk result (IsContainer bytes.now) }
    ensures fault { IfErr result (IsFault bytes.now) }
{
    let header = header_of(bytes)?;
    let Some(order) = header.order() else {
        return Err(ContainerFault::Format);
    };
    if !header.holds_data(order, bytes.len()) {
        return Err(ContainerFault::Data);
    }
    let size = header.image_size(order) as usize;
    if !order.takes(size) {
        return Err(ContainerFault::Length);
    }
    Ok(Container {
        order,
        protected: header.has(PROTECTED),
        volume: header.volume(),
        start: header.data_start as usize,
        size,
    })
}
