// The jobs that put an image into a container and take it out of one, and the shell around an image that is handed out.
ghost use Rattle.shop_jobs.specs.Job.{wrapping_view};
ghost use Rattle.shop_replies.specs.ContainerReply.{IsInShell, IsUnwrapReply, IsWrapReply};

use crate::refusal::{Failure, Refusal};
use crate::reply::Reply;
use a2_device::Order;
use disk_container::{Shell, WrapError, container_of, keep_payload, wrap};
use shop_jobs::WrapOptions;
use std::alloc::Global;

/// The container of an image in an order: `Made`, or `Refused` with `Length`, or `Failed` for want of memory.
pub fn wrap_reply(alloc: Global, image: &[u8], order: Order, options: &WrapOptions) -> Reply
    ensures { IsWrapReply order (wrapping_view options.now) image.now result }
{
    let wrapped = wrap(
        alloc,
        order,
        options.volume,
        options.comment.as_bytes(),
        options.protect,
        image,
    );
    match wrapped {
        Ok(file) => Reply::made(file),
        Err(WrapError::Length) => Reply::refused(Refusal::Length),
        Err(WrapError::Memory) => Reply::failed(Failure::Memory),
    }
}

/// The payload of a container: `Made`, or `Refused` with what is wrong with a file that is none. Takes no memory.
pub fn unwrap_reply(mut file: Vec<u8>) -> Reply
    ensures { IsUnwrapReply file.items result }
{
    match container_of(file.as_slice()) {
        Ok(container) => {
            keep_payload(&mut file, container);
            Reply::made(file)
        }
        Err(fault) => Reply::refused(Refusal::Container(fault)),
    }
}

impl Reply {
    /// The same reply, with the shell of a container around the image that it hands out; or `Failed` for want of
    /// memory.
    pub fn in_shell(self, alloc: Global, shell: &Shell) -> Reply
        ensures { IsInShell shell.now.front.items shell.now.back.items self result }
    {
        let Reply {
            status,
            told,
            image,
        } = self;
        let Some(image) = image else {
            return Reply::told(status, told);
        };
        match shell.around(alloc, image.as_slice()) {
            Ok(file) => Reply {
                status,
                told,
                image: Some(file),
            },
            Err(_) => Reply::failed(Failure::Memory),
        }
    }
}
