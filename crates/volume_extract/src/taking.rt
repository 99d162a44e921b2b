// One more item of an extraction.
ghost use Rattle.std.specs.Prelude.{◌≡◌, ◌<◌, ◌≤◌, ◌+◌, ◌-◌, ◌^◌, IfErr, MatchOption, OnOk, string_bytes};
ghost use Rattle.host_folders.specs.HostNames.{text_beside};
ghost use Rattle.host_folders.specs.Path.{IsSafePath};
ghost use Rattle.volume_extract.specs.ExtractText.{AreAtMost};
ghost use Rattle.volume_extract.specs.Items.{bytes_found};
ghost use Rattle.volume_extract.specs.Looked.{body_view};
ghost use Rattle.volume_extract.specs.Progress.{IsNotTaken, IsTaken};

use crate::body::Body;
use crate::error::ExtractError;
use crate::extraction::Extraction;
use crate::items::Next;
use crate::kept::Kept;
use crate::making::make;
use crate::tree_format::TreeFormat;
use host_folders::Folder;
use std::alloc::Global;

// How many bytes there are with those of one more item, unless these are more than there may be.
fn spent(bytes: u64, body: &Body, most: u64) -> Option<u64>
    ensures { MatchOption result (most < bytes + bytes_found (body_view body.now))
        (λ sum. (sum ≡ bytes + bytes_found (body_view body.now)) × (sum ≤ most)) }
{
    let sum = bytes.checked_add(body.bytes()?)?;
    if sum > most {
        return None;
    }
    Some(sum)
}

/// Keeps one more item, and makes it.
///
/// # Errors
/// `TooLarge` where all that is made has more bytes than `most` then; `Folder`; `Memory`.
pub fn take_item<F: TreeFormat, O: Folder>(
    alloc: Global,
    told: &mut Extraction<'_, F>,
    folder: &mut O,
    next: &Next,
    most: u64,
) -> Result<(), ExtractError>
    requires safe { IsSafePath (string_bytes next.now.host) }
    requires text_safe { IsSafePath (text_beside (string_bytes next.now.host)) }
    requires few { AreAtMost told.old.totals (2 ^ 64 - 2) }

    ensures opened { told.new.opened ≡ told.old.opened }
    ensures same { (O.state folder.new).honest ≡ (O.state folder.old).honest }
    ensures taken { OnOk result (IsTaken most next.now told.old.kept.items told.new.kept.items told.old.totals
        told.new.totals (O.state folder.old) (O.state folder.new)) }
    ensures refused { IfErr result (IsNotTaken O.state O.may_fail most next.now told.old.totals folder.old
        (O.state folder.new)) }
{
    let Some(bytes) = spent(told.totals.bytes, &next.body, most) else {
        return Err(ExtractError::TooLarge);
    };
    let kept = Kept {
        head: next.head,
        outcome: next.body.outcome(),
    };
    told.keep(kept, bytes)?;
    make(alloc, folder, next.host.as_str(), &next.body)
}
