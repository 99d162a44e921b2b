// The form of a file that can be read, where it gives the bytes of the file back.
ghost use Rattle.std.specs.Prelude.{◌≡◌, ◌≤◌, ◌↔◌, true, All, IfNone, IfOk, IfSome, IsTrue, List, length, ℕ};
ghost use Rattle.apple_text.specs.Taken.{IsAllowed};
ghost use Rattle.applesoft.specs.Program.{IsListed};
ghost use Rattle.applesoft.specs.Tokens.{IsTokenized};
ghost use Rattle.file_forms.specs.Found.{file_view};
ghost use Rattle.file_forms.specs.Readable.{AreZerosBehind, IsReadable, IsTakenBack, IsTextTakenBack, high_of};
ghost use Rattle.file_forms.specs.Shown.{IsInForm};

use crate::form::FileForm;
use crate::found::FoundFile;
use apple_text::{
    HighBit, TakeError, TextForm, a_text_is_taken_in_one_way, bytes_of, text_of,
    what_was_shown_is_taken_back,
};
use applesoft::{
    ListError, TokenError, a_program_has_one_listing, a_text_is_one_program, list, tokens,
};
use std::alloc::{AllocError, Allocator};
use vol_layout::PlaceForm;

// The highest bit of the first byte of a text.
fn high_of(text: &[u8]) -> HighBit
    ensures { result ≡ high_of text.now }
{
    match text {
        [first, ..] if *first >= 0x80 => HighBit::On,
        _ => HighBit::Off,
    }
}

// Whether a byte has this highest bit.
fn has_high(byte: u8, high: HighBit) -> bool
    ensures { IsTrue result ↔ IsAllowed (record { high = high; zeros = true }) byte }
{
    match high {
        HighBit::On => byte >= 0x80,
        HighBit::Off => byte < 0x80,
    }
}

// Whether each byte has this highest bit.
fn have_high(bytes: &[u8], high: HighBit) -> bool
    ensures { IsTrue result ↔ All (IsAllowed (record { high = high; zeros = true })) bytes.now }
{
    bytes.iter().all(|byte| has_high(*byte, high))
}

// Whether all bytes are $00.
fn are_zeros(bytes: &[u8]) -> bool
    ensures { IsTrue result ↔ All (λ byte. byte ≡ 0) bytes.now }
{
    bytes.iter().all(|byte| *byte == 0)
}

// Whether nothing but $00 stands behind the text of a file in its units.
fn are_zeros_behind(file: &FoundFile<'_>, text: &[u8]) -> bool
    requires { file.now.system ≡ PlaceForm.Sector → length text.now ≤ length file.now.whole.now }
    ensures { IsTrue result ↔ AreZerosBehind file.now.system text.now file.now.whole.now }
{
    match file.system {
        PlaceForm::Sector => are_zeros(&file.whole[text.len()..]),
        PlaceForm::Block => true,
    }
}

// A text, where it is taken for the bytes of the file.
fn readable_text<A: Allocator>(
    alloc: A,
    file: &FoundFile<'_>,
) -> Result<Option<Vec<u8, A>>, AllocError>
    ensures some { IfOk result (λ text. IfSome text (λ some.
        IsInForm FileForm.Text (file_view file.now) some.items
        × IsTextTakenBack (file_view file.now) some.items)) }
    ensures none { IfOk result (λ text. IfNone text ((other : List ℕ)
        → IsInForm FileForm.Text (file_view file.now) other
        → ¬ IsTextTakenBack (file_view file.now) other)) }
{
    what_was_shown_is_taken_back();
    let bytes = file.text();
    if !have_high(bytes, high_of(bytes)) || !are_zeros_behind(file, bytes) {
        return Ok(None);
    }
    let text = text_of(alloc, bytes)?;
    Ok(Some(text))
}

// Whether a text is a program.
fn is_program<A: Allocator + Copy>(
    alloc: A,
    text: &[u8],
    program: &[u8],
) -> Result<bool, AllocError>
    ensures { IfOk result (λ is. IsTrue is ↔ IsTokenized text.now program.now) }
{
    a_text_is_one_program();
    match tokens(alloc, text) {
        Ok(taken) => Ok(taken.as_slice() == program),
        Err(TokenError::BadLine(_)) => Ok(false),
        Err(TokenError::Memory) => Err(AllocError),
    }
}

// The listing of a program, where it is taken for the bytes of the file.
fn readable_program<A: Allocator + Copy>(
    alloc: A,
    body: &[u8],
) -> Result<Option<Vec<u8, A>>, AllocError>
    ensures some { IfOk result (λ text. IfSome text (λ some.
        IsListed body.now some.items × IsTokenized some.items body.now)) }
    ensures none { IfOk result (λ text. IfNone text ((other : List ℕ)
        → IsListed body.now other → ¬ IsTokenized other body.now)) }
{
    a_program_has_one_listing();
    match list(alloc, body) {
        Ok(text) => {
            if is_program(alloc, text.as_slice(), body)? {
                Ok(Some(text))
            } else {
                Ok(None)
            }
        }
        Err(ListError::Form) => Ok(None),
        Err(ListError::Memory) => Err(AllocError),
    }
}

// Whether a text is taken for the bytes of the file's text.
fn is_text_of<A: Allocator>(
    alloc: A,
    file: &FoundFile<'_>,
    given: &[u8],
) -> Result<bool, AllocError>
    ensures { IfOk result (λ is. IsTrue is ↔ IsTextTakenBack (file_view file.now) given.now) }
{
    a_text_is_taken_in_one_way();
    let bytes = file.text();
    if !are_zeros_behind(file, bytes) {
        return Ok(false);
    }
    let form = TextForm {
        high: high_of(bytes),
        zeros: true,
    };
    match bytes_of(alloc, form, given) {
        Ok(taken) => Ok(taken.as_slice() == bytes),
        Err(TakeError::BadLine(_)) => Ok(false),
        Err(TakeError::Memory) => Err(AllocError),
    }
}

/// Whether just the bytes of a file are taken from what is given as a form of it: as a text, with the highest bit that
/// the first byte of the file's text has, or as the listing of a program in Applesoft BASIC. From no other form are
/// bytes taken back.
///
/// # Errors
/// Want of memory alone.
pub fn is_taken_back<A: Allocator + Copy>(
    alloc: A,
    form: FileForm,
    file: &FoundFile<'_>,
    given: &[u8],
) -> Result<bool, AllocError>
    ensures { IfOk result (λ is. IsTrue is ↔ IsTakenBack form (file_view file.now) given.now) }
{
    match form {
        FileForm::Text => is_text_of(alloc, file, given),
        FileForm::Applesoft => is_program(alloc, given, file.body),
        FileForm::Integer | FileForm::Single => Ok(false),
    }
}

/// A file as the form of its type shows it, where just the bytes of the file are taken from that: a text, or a program
/// in Applesoft BASIC.
///
/// # Errors
/// Want of memory alone.
pub fn readable<A: Allocator + Copy>(
    alloc: A,
    file: &FoundFile<'_>,
) -> Result<Option<Vec<u8, A>>, AllocError>
    ensures some { IfOk result (λ text. IfSome text (λ some. IsReadable (file_view file.now) some.items)) }
    ensures none { IfOk result (λ text. IfNone text ((other : List ℕ)
        → ¬ IsReadable (file_view file.now) other)) }
{
    match FileForm::of_type(file.info.file_type) {
        Some(FileForm::Text) => readable_text(alloc, file),
        Some(FileForm::Applesoft) => readable_program(alloc, file.body),
        Some(FileForm::Integer | FileForm::Single) | None => Ok(None),
    }
}
