// What is told where an entry of a folder is refused: the reply, with its path.
ghost use Rattle.std.specs.Prelude.{◌≡◌, ◌↔◌, IfOk, IsTrue};
ghost use Rattle.folder_adding.specs.AddReply.{IsOfEntry, TellsAt, line_at};
ghost use Rattle.shop_replies.specs.Reply.{told_text};

use shop_replies::{Failure, Refusal, Reply, Status, Told};
use shown_text::escaped;
use std::alloc::{AllocError, Global};

// Whether a reply is a refusal for what an entry says or holds.
fn is_of_entry(reply: &Reply) -> bool
    ensures { IsTrue result ↔ IsOfEntry reply.now }
{
    match (reply.status, &reply.told) {
        (Status::Refused, Told::Refusal(refusal)) => *refusal != Refusal::Check,
        (Status::Refused, _) => true,
        _ => false,
    }
}

// The line of what is told, with a path in the place of its end.
fn line_with(alloc: Global, told: Told, path: &str) -> Result<Vec<u8>, AllocError>
    ensures { IfOk result (λ text. text.items ≡ line_at (told_text told) path.now) }
{
    let shown = escaped(alloc, path)?;
    let mut text = told.text(alloc)?;
    let end = text.len().saturating_sub(1);
    text.truncate(end);
    text.push(b' ')?;
    text.extend_from_slice(shown.as_bytes())?;
    text.push(b'\n')?;
    Ok(text)
}

/// The reply to an entry, with its path where that is refused.
pub fn reply_at(alloc: Global, path: &str, reply: Reply) -> Reply
    ensures { TellsAt path.now reply result }
{
    if !is_of_entry(&reply) {
        return reply;
    }
    let Reply { told, .. } = reply;
    match line_with(alloc, told, path) {
        Ok(text) => Reply::told(Status::Refused, Told::Bytes(text)),
        Err(_) => Reply::failed(Failure::Memory),
    }
}
