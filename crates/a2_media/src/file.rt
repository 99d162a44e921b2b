// What is asked of a file.
ghost use Rattle.std.specs.Prelude.{◌≡◌, ◌⊎◌, ◌<◌, ◌≤◌, ◌+◌, length, slice_range, IsTrue, OnErr, OnOk};
ghost use Rattle.a2_media.specs.File.{FileState, IsSameFile, after_write, last_standing};

use thiserror::Error;

/// A call of the system failed.
#[derive(Clone, Copy, Debug, PartialEq, Eq, Error)]
#[error("the file failed")]
pub struct FileFailure;

/// Bytes that are read and written at a position. What is said of them holds where the file is honest, which no call
/// changes.
pub trait PositionedFile {
    ghost state: { Self → FileState };

    /// How many bytes it has, which no call changes.
    fn size(&self) -> u64
        ensures { result ≡ (state self.now).size };

    /// Copies the bytes from a position on into `bytes`.
    ///
    /// # Errors
    /// `FileFailure` where a call of the system fails; the file stays.
    fn read_whole(&mut self, position: u64, bytes: &mut [u8]) -> Result<(), FileFailure>
        requires inside { position + length bytes.old ≤ (state self.old).size }

        // every file
        ensures same { IsSameFile (state self.old) (state self.new) }
        ensures standing { (state self.new).standing ≡ (state self.old).standing }

        // an honest file
        ensures read { IsTrue (state self.old).honest
            → OnOk result (bytes.new ≡ slice_range (state self.old).bytes position (position + length bytes.old)) }
        ensures kept { IsTrue (state self.old).honest → state self.new ≡ state self.old };

    /// Writes `bytes` over those from a position on.
    ///
    /// # Errors
    /// `FileFailure` where a call of the system fails; the old bytes stand there then, or the new ones.
    fn write_whole(&mut self, position: u64, bytes: &[u8]) -> Result<(), FileFailure>
        requires inside { position + length bytes.now ≤ (state self.old).size }
        requires room { (state self.old).standing < last_standing }

        // every file
        ensures same { IsSameFile (state self.old) (state self.new) }
        ensures standing { (state self.new).standing ≤ (state self.old).standing + 1 }

        // an honest file
        ensures written { IsTrue (state self.old).honest
            → OnOk result (state self.new ≡ after_write position bytes.now (state self.old)) }
        ensures failed { IsTrue (state self.old).honest → OnErr result
            ((state self.new ≡ state self.old) ⊎ (state self.new ≡ after_write position bytes.now (state self.old))) };

    ghost whole: { (file : Self) → IsTrue (state file).honest → length (state file).bytes ≡ (state file).size };
}
