// Bytes that are written to the last.
ghost use Rattle.std.specs.Prelude.{◌≡◌, ℕ, List, ◌++◌, drop, take, IfOk, IsTrue, OnOk};
ghost use Rattle.shop_host.specs.State.{unflushed};
ghost use Rattle.shop_host.specs.Runs.{IsRun};
ghost use Rattle.shop_outputs.specs.Asides.{may_at};

use shop_host::Host;
use std::io::{self, ErrorKind};

// Writes a front of these bytes, and answers those behind it: all of them where the write was interrupted.
fn write_front<'b, H: Host>(
    host: &mut H,
    file: &mut H::File,
    bytes: &'b [u8],
) -> io::Result<&'b [u8]>
    ensures place { H.place file.new ≡ H.place file.old }
    ensures run { IsTrue (H.state host.old).honest
        → IsRun (may_at (H.place file.old)) (H.state host.old) (H.state host.new) }
    ensures rest { IsTrue (H.state host.old).honest
        → (held : List ℕ) → (H.state host.old).files (H.place file.old) ≡ unflushed held
        → IfOk result (λ rest. (count : ℕ) × (rest.now ≡ drop count bytes.now)
        × ((H.state host.new).files (H.place file.old) ≡ unflushed (held ++ take count bytes.now))) }
{
    match host.write(file, bytes) {
        Ok(0) => Err(io::Error::from(ErrorKind::WriteZero)),
        Ok(count) => Ok(&bytes[count..]),
        Err(error) if error.kind() == ErrorKind::Interrupted => Ok(bytes),
        Err(error) => Err(error),
    }
}

/// Writes all of these bytes to an open file, behind what was written to it. A write that was interrupted is tried
/// again.
pub fn write_whole<H: Host>(host: &mut H, file: &mut H::File, bytes: &[u8]) -> io::Result<()>
    ensures place { H.place file.new ≡ H.place file.old }
    ensures run { IsTrue (H.state host.old).honest
        → IsRun (may_at (H.place file.old)) (H.state host.old) (H.state host.new) }
    ensures whole { IsTrue (H.state host.old).honest
        → (held : List ℕ) → (H.state host.old).files (H.place file.old) ≡ unflushed held
        → OnOk result ((H.state host.new).files (H.place file.old) ≡ unflushed (held ++ bytes.now)) }
{
    let mut rest = bytes;
    for _ in 0..u64::MAX {
        if rest.is_empty() {
            return Ok(());
        }
        rest = write_front(host, file, rest)?;
    }
    Err(io::Error::from(ErrorKind::Other))
}
