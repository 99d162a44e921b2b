// The bytes of the files that a job reads beside its image.
ghost use Rattle.std.specs.Prelude.{◌≡◌, [], IfErr, IfOk, IsTrue};
ghost use Rattle.shop_host.specs.State.{HostState};
ghost use Rattle.shop_inputs.specs.Beside.{IsExtraOf, IsImageFront, IsReadingBeside, IsReadingImage};
ghost use Rattle.shop_jobs.specs.Input.{IsRead, IsReadBeside, beside_view, source_view};
ghost use Rattle.shop_replies.specs.Reading.{IsReadFailure};

use shop_host::{Host, Readable, front_of_input, read_file};
use shop_jobs::{Beside, Source};
use shop_replies::{Failure, most_beside};

// The bytes of another image, up to one past so many; none where there is none.
fn front_of_image<H: Host>(host: &mut H, source: &Source, most: u32) -> Result<Vec<u8>, Failure>
    ensures none { ¬ IsRead (source_view source.now) → IfOk result (λ bytes. bytes.items ≡ []) }
    ensures failed { IfErr result (λ failure. IsRead (source_view source.now) × IsReadFailure failure) }
    ensures looked { IsTrue (H.state host.old).honest
        → IsReadingImage (source_view source.now) (H.state host.old) (H.state host.new) }
    ensures read { IsTrue (H.state host.old).honest → IfOk result (λ read.
        IsImageFront (source_view source.now) most read.items (H.state host.old) (H.state host.new)) }
{
    match source {
        Source::Nothing => Ok(Vec::new(host.alloc())),
        Source::StandardInput => front_of_input(host, most),
        Source::File(path) => read_file(host, path.as_str(), Readable::Any, most),
    }
}

/// The bytes of the file that a job reads beside its image, or of the other image, up to one past the most that are
/// taken: of an image whose order is to be found those of a container. None where there is no such file.
///
/// # Errors
/// `Input` where it can't be opened or read or another holds its lock, `Memory` where there is no room for it.
pub fn extra_bytes<H: Host>(host: &mut H, beside: &Beside) -> Result<Vec<u8>, Failure>
    ensures none { ¬ IsReadBeside (beside_view beside.now) → IfOk result (λ bytes. bytes.items ≡ []) }
    ensures failed { IfErr result (λ failure. IsReadBeside (beside_view beside.now) × IsReadFailure failure) }
    ensures looked { IsTrue (H.state host.old).honest
        → IsReadingBeside (beside_view beside.now) (H.state host.old) (H.state host.new) }
    ensures read { IsTrue (H.state host.old).honest → IfOk result (λ read.
        IsExtraOf (beside_view beside.now) read.items (H.state host.old) (H.state host.new)) }
{
    let most = most_beside(beside);
    match beside {
        Beside::File(path) => read_file(host, path.as_str(), Readable::Any, most),
        Beside::Image { source, .. } => front_of_image(host, source, most),
        Beside::Nothing | Beside::Folder(_) => Ok(Vec::new(host.alloc())),
    }
}
