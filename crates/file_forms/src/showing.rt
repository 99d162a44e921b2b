// A file as a form shows it.
ghost use Rattle.std.specs.Prelude.{◌≡◌, Err, IfOk};
ghost use Rattle.file_forms.specs.Found.{file_view};
ghost use Rattle.file_forms.specs.Shown.{HasForm, IsInForm};

use crate::error::FormError;
use crate::form::FileForm;
use crate::found::FoundFile;
use apple_text::text_of;
use std::alloc::Allocator;

/// A file as a form shows it.
///
/// # Errors
/// `Form` where the file has no such form: its body is no program, or too long for an AppleSingle file; `Memory`.
pub fn in_form<A: Allocator + Copy>(
    alloc: A,
    form: FileForm,
    file: &FoundFile<'_>,
) -> Result<Vec<u8, A>, FormError>
    ensures shown { IfOk result (λ bytes. IsInForm form (file_view file.now) bytes.items) }
    ensures form { result ≡ Err FormError.Form → ¬ HasForm form (file_view file.now) }
{
    match form {
        FileForm::Text => Ok(text_of(alloc, file.text())?),
        FileForm::Applesoft => Ok(applesoft::list(alloc, file.body)?),
        FileForm::Integer => Ok(integer_basic::list(alloc, file.body)?),
        FileForm::Single => Ok(apple_single::print(alloc, file.name, file.info, file.body)?),
    }
}
