// The bytes of what a job reads beside its image.
ghost use Rattle.std.specs.Prelude.{◌≡◌, option_map};
ghost use Rattle.shop_jobs.specs.Input.{beside_view};
ghost use Rattle.shop_reads.specs.Extra.{extra_view};
ghost use Rattle.shop_commands.specs.Answer.{boot_of as boot_in, extra_of as taken_of};

use shop_jobs::Beside;
use shop_reads::Extra;

/// The bytes as a look takes them: those of another image with its order, where that is known.
pub fn extra_of(beside: &Beside, bytes: Vec<u8>) -> Extra
    ensures { extra_view result ≡ taken_of (beside_view beside.now) bytes.items }
{
    match beside {
        Beside::Image { order, .. } => match order.known() {
            Some(order) => Extra::Image { bytes, order },
            None => Extra::File(bytes),
        },
        Beside::Nothing | Beside::File(_) | Beside::Folder(_) => Extra::File(bytes),
    }
}

/// The bytes of the image whose system is copied, where there is another image.
pub fn boot_of(beside: &Beside, bytes: Vec<u8>) -> Option<Vec<u8>>
    ensures { option_map (λ v. v.items) result ≡ boot_in (beside_view beside.now) bytes.items }
{
    match beside {
        Beside::Image { .. } => Some(bytes),
        Beside::Nothing | Beside::File(_) | Beside::Folder(_) => None,
    }
}
