// What is asked of the files that are saved.
ghost use Rattle.std.specs.Prelude.{◌≡◌, ℕ, IfErr, IfOk, List, Option};
ghost use Rattle.folder_adding.specs.Files.{IsReadOf};
ghost use Rattle.shop_replies.specs.Reading.{IsReadFailure};

use shop_replies::Failure;
use std::alloc::Global;

/// Files that are read by their numbers. Each says which failures a reading may answer.
pub trait HostFiles {
    ghost use Rattle.shop_replies.specs.declared.refusal.Failure.{Failure};

    /// What each file holds, where that is known.
    ghost holds: { Self → Option (ℕ → List ℕ) };

    /// The failures that the reading of a file may answer.
    ghost may_fail: { Self → ℕ → Failure → Type 0 };

    /// The bytes of a file, and of a longer one at most one more than are taken of a file that is saved.
    ///
    /// # Errors
    /// `Input` where the file can't be read, `Memory` where there is no room for its bytes.
    fn read(&mut self, alloc: Global, file: usize) -> Result<Vec<u8>, Failure>
        ensures same { holds self.new ≡ holds self.old }
        ensures read { IfOk result (λ read. IsReadOf (holds self.old) file read.items) }
        ensures failed { IfErr result IsReadFailure }
        ensures cause { IfErr result (may_fail self.old file) };
}
