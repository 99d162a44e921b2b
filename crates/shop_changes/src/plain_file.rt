// A file that was taken from the form in which it is given.
ghost use Rattle.std.specs.Prelude.{◌≡◌, IfErr, IfOk, Some};
ghost use Rattle.file_forms.specs.Taken.{taken_view};
ghost use Rattle.shop_changes.specs.Replaced.{IsTakenSaid, kind_left, plain_view};
ghost use Rattle.shop_changes.specs.SaidFile.{IsNotGivenIn, said_view};

use crate::given_words::kind_for;
use crate::said_file::{SaidFile, taken_file};
use file_forms::{GivenForm, TakenFile};
use pro_dir::ProDate;
use shop_jobs::FileSystem;
use shop_replies::{Refusal, Reply};
use std::alloc::Global;

/// A file that was taken from the form in which it is given.
#[derive(Drop)]
pub struct PlainFile {
    pub file_system: FileSystem,
    /// The type, where the words or the form say one.
    pub kind: Option<u8>,
    /// The aux type or the address, where the words or the form say one.
    pub aux: Option<u16>,
    pub date: ProDate,
    pub bytes: Vec<u8>,
}

impl PlainFile {
    /// It, as a file that is said.
    pub fn said(&self) -> SaidFile<'_>
        ensures { said_view result ≡ plain_view self.now }
    {
        SaidFile {
            file_system: self.file_system,
            kind: self.kind,
            aux: self.aux,
            date: self.date,
            form: None,
            bytes: self.bytes.as_slice(),
        }
    }
}

// The type that is said, or that of the file system for what was taken, where that has one.
fn kind_left(said: SaidFile<'_>, file: &TakenFile) -> Option<u8>
    ensures { result ≡ kind_left (said_view said.entry) (taken_view file.now) }
{
    match (said.kind, file.file_type) {
        (Some(kind), _) => Some(kind),
        (None, Some(file_type)) => kind_for(said.file_system, file_type),
        (None, None) => None,
    }
}

/// The file that is given in a form: what neither the words nor the form say is left open.
///
/// # Errors
/// The reply to what can't be taken from the form, or whose type the file system does not have.
pub fn taken_plain(alloc: Global, said: SaidFile<'_>, form: GivenForm) -> Result<PlainFile, Reply>
    requires form { said.form ≡ Some form }
    ensures taken { IfOk result (λ plain. IsTakenSaid (said_view said.entry) form (plain_view plain)) }
    ensures refused { IfErr result (IsNotGivenIn (said_view said.entry) form) }
{
    let file = taken_file(alloc, said, form)?;
    if said.kind_of(&file).is_none() {
        return Err(Reply::refused(Refusal::Type));
    }
    Ok(PlainFile {
        file_system: said.file_system,
        kind: kind_left(said, &file),
        aux: said.aux.or(file.aux_type),
        date: said.date,
        bytes: file.bytes,
    })
}
