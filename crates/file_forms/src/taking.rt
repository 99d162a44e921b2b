// The new file that is given in a form.
ghost use Rattle.std.specs.Prelude.{◌≡◌, ◌≢◌, Err, IfOk, ℕ};
ghost use Rattle.file_forms.specs.Taken.{CanBeTakenFrom, IsBadLine, IsTakenFrom, may_be_zero, taken_view};

use crate::error::TakingError;
use crate::form::GivenForm;
use apple_text::{HighBit, TextForm, bytes_of};
use applesoft::{TokenError, tokens};
use std::alloc::{Allocator, Global};
use vol_layout::PlaceForm;

/// A new file: its type and aux type of ProDOS, where what is given says them, and its bytes.
#[derive(Drop)]
pub struct TakenFile<A: Allocator = Global> {
    pub file_type: Option<u8>,
    pub aux_type: Option<u16>,
    pub bytes: Vec<u8, A>,
}

// Whether a byte of a text may be $00.
fn may_be_zero(system: PlaceForm) -> bool
    ensures { result ≡ may_be_zero system }
{
    match system {
        PlaceForm::Sector => false,
        PlaceForm::Block => true,
    }
}

// The text that is given.
fn taken_text<A: Allocator>(
    alloc: A,
    system: PlaceForm,
    high: HighBit,
    given: &[u8],
) -> Result<TakenFile<A>, TakingError>
    ensures taken { IfOk result (λ file. IsTakenFrom system (GivenForm.Text high) given.now (taken_view file)) }
    ensures refused { (line : ℕ) → result ≡ Err (TakingError.BadLine line)
        → ¬ CanBeTakenFrom system (GivenForm.Text high) given.now }
    ensures line { (line : ℕ) → result ≡ Err (TakingError.BadLine line)
        → IsBadLine system (GivenForm.Text high) given.now line }
    ensures single { result ≢ Err TakingError.Single }
{
    let form = TextForm {
        high,
        zeros: may_be_zero(system),
    };
    let bytes = bytes_of(alloc, form, given)?;
    Ok(TakenFile {
        file_type: Some(0x04),
        aux_type: None,
        bytes,
    })
}

// The program whose listing is given.
fn taken_program<A: Allocator + Copy>(
    alloc: A,
    system: PlaceForm,
    given: &[u8],
) -> Result<TakenFile<A>, TakingError>
    ensures taken { IfOk result (λ file. IsTakenFrom system GivenForm.Applesoft given.now (taken_view file)) }
    ensures refused { (line : ℕ) → result ≡ Err (TakingError.BadLine line)
        → ¬ CanBeTakenFrom system GivenForm.Applesoft given.now }
    ensures line { (line : ℕ) → result ≡ Err (TakingError.BadLine line)
        → IsBadLine system GivenForm.Applesoft given.now line }
    ensures single { result ≢ Err TakingError.Single }
{
    match tokens(alloc, given) {
        Ok(bytes) => Ok(TakenFile {
            file_type: Some(0xfc),
            aux_type: Some(0x0801),
            bytes,
        }),
        Err(TokenError::BadLine(line)) => Err(TakingError::BadLine(line)),
        Err(TokenError::Memory) => Err(TakingError::Memory),
    }
}

// The file that an AppleSingle file has.
fn taken_single<A: Allocator>(
    alloc: A,
    system: PlaceForm,
    given: &[u8],
) -> Result<TakenFile<A>, TakingError>
    ensures taken { IfOk result (λ file. IsTakenFrom system GivenForm.Single given.now (taken_view file)) }
    ensures single { result ≡ Err TakingError.Single → ¬ CanBeTakenFrom system GivenForm.Single given.now }
    ensures line { (line : ℕ) → result ≢ Err (TakingError.BadLine line) }
{
    let Some(single) = apple_single::read(given) else {
        return Err(TakingError::Single);
    };
    let (file_type, aux_type) = match single.info {
        Some(info) => (Some(info.file_type), Some(info.aux_type)),
        None => (None, None),
    };
    Ok(TakenFile {
        file_type,
        aux_type,
        bytes: Vec::from_slice(alloc, single.fork)?,
    })
}

/// The new file that is given in a form, for a volume of DOS 3.3 (`Sector`) or of ProDOS (`Block`).
///
/// # Errors
/// `BadLine` with the number of the first line of a text or a listing that can't be taken; `Single` for what is no
/// AppleSingle file whose data fork can be read; `Memory`.
pub fn taken_from<A: Allocator + Copy>(
    alloc: A,
    system: PlaceForm,
    form: GivenForm,
    given: &[u8],
) -> Result<TakenFile<A>, TakingError>
    ensures taken { IfOk result (λ file. IsTakenFrom system form given.now (taken_view file)) }
    ensures refused { (line : ℕ) → result ≡ Err (TakingError.BadLine line)
        → ¬ CanBeTakenFrom system form given.now }
    ensures line { (line : ℕ) → result ≡ Err (TakingError.BadLine line)
        → IsBadLine system form given.now line }
    ensures single { result ≡ Err TakingError.Single
        → (form ≡ GivenForm.Single) × (¬ CanBeTakenFrom system form given.now) }
{
    match form {
        GivenForm::Text(high) => taken_text(alloc, system, high, given),
        GivenForm::Applesoft => taken_program(alloc, system, given),
        GivenForm::Single => taken_single(alloc, system, given),
    }
}
