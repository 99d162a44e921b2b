// What is found of a file that can be read: its body, and its readable form.
ghost use Rattle.std.specs.Prelude.{◌≡◌, ◌⊎◌, ◌<◌, ℕ, None, false, IfNone, IfOk, IfSome, List};
ghost use Rattle.file_forms.specs.Found.{file_view};
ghost use Rattle.file_forms.specs.Shown.{HasForm, IsInForm, form_of};
ghost use Rattle.host_folders.specs.HostNames.{type_in};
ghost use Rattle.vol_format.specs.Directory.{entries, entry_of};
ghost use Rattle.volume_extract.specs.Items.{IsFoundIn};
ghost use Rattle.volume_extract.specs.Looked.{body_view, view_with};
ghost use Rattle.volume_extract.specs.Texts.{HasText};

use crate::body::Body;
use crate::opened::Opened;
use crate::texts::Texts;
use crate::tree_format::TreeFormat;
use apple_single::FileInfo;
use file_formats::FileFormat;
use file_forms::{FileForm, FormError, FoundFile, in_form, readable};
use host_folders::Stored;
use std::alloc::{AllocError, Global};
use vol_layout::PlaceForm;

/// The type of programs in Integer BASIC.
const INTEGER: u8 = 0xfa;

// The type of ProDOS for a kind.
fn type_of(form: PlaceForm, kind: u8) -> u8
    ensures { result ≡ type_in form kind }
{
    let stored = Stored {
        form,
        name: &[],
        kind,
        aux: 0,
        directory: false,
        text: false,
    };
    stored.file_type()
}

// Whether a file of a kind may have a readable form that is put into the folder.
fn may_have_text(texts: Texts, form: PlaceForm, kind: u8) -> bool
    ensures { result ≡ false → (texts ≡ Texts.Without) ⊎ (form_of (type_in form kind) ≡ None) }
{
    match texts {
        Texts::Without => false,
        Texts::Beside | Texts::Alone => match FileForm::of_type(type_of(form, kind)) {
            Some(_) => true,
            None => false,
        },
    }
}

// A program in Integer BASIC as its listing.
fn integer_listing(alloc: Global, file: &FoundFile<'_>) -> Result<Option<Vec<u8>>, AllocError>
    ensures some { IfOk result (λ text. IfSome text (λ some.
        IsInForm FileForm.Integer (file_view file.now) some.items)) }
    ensures none { IfOk result (λ text. IfNone text (¬ HasForm FileForm.Integer (file_view file.now))) }
{
    match in_form(alloc, FileForm::Integer, file) {
        Ok(text) => Ok(Some(text)),
        Err(FormError::Form) => Ok(None),
        Err(FormError::Memory) => Err(AllocError),
    }
}

// The readable form of a file, as it is put into the folder.
fn text_in(alloc: Global, texts: Texts, file: &FoundFile<'_>) -> Result<Option<Vec<u8>>, AllocError>
    ensures some { IfOk result (λ text. IfSome text (λ some. HasText texts (file_view file.now) some.items)) }
    ensures none { IfOk result (λ text. IfNone text ((other : List ℕ)
        → ¬ HasText texts (file_view file.now) other)) }
{
    match texts {
        Texts::Without => Ok(None),
        Texts::Beside => readable(alloc, file),
        Texts::Alone => {
            if file.info.file_type == INTEGER {
                integer_listing(alloc, file)
            } else {
                readable(alloc, file)
            }
        }
    }
}

// A file that may have a readable form.
fn found_with_text<F: TreeFormat>(
    alloc: Global,
    opened: &Opened<'_, F>,
    entry: u32,
    kind: u8,
    whole: &[u8],
) -> Result<Body, AllocError>
    requires { entry < entries (F.directory opened.now.format.now opened.now.volume) }
    ensures { IfOk result (λ body. IsFoundIn opened.now.texts (view_with opened.now.form kind
        (F.files opened.now.format.now) (entry_of (F.directory opened.now.format.now opened.now.volume) entry)
        whole.now) (body_view body)) }
{
    let bytes = opened
        .format
        .body(&opened.volume, entry, Vec::from_slice(alloc, whole)?)?;
    let file = FoundFile {
        system: opened.form,
        name: &[],
        info: FileInfo {
            access: 0,
            file_type: type_of(opened.form, kind),
            aux_type: 0,
        },
        whole,
        body: bytes.as_slice(),
    };
    let text = text_in(alloc, opened.texts, &file)?;
    match (text, opened.texts) {
        (None, _) => Ok(Body::File(bytes)),
        (Some(text), Texts::Beside) => Ok(Body::Both(bytes, text)),
        (Some(text), Texts::Alone) => Ok(Body::Text(text)),
        (Some(_), Texts::Without) => unreachable!(),
    }
}

/// What is found of a file of a kind that has this whole text.
///
/// # Errors
/// Want of memory alone.
pub fn found_file<F: TreeFormat>(
    alloc: Global,
    opened: &Opened<'_, F>,
    entry: u32,
    kind: u8,
    whole: Vec<u8>,
) -> Result<Body, AllocError>
    requires { entry < entries (F.directory opened.now.format.now opened.now.volume) }
    ensures { IfOk result (λ body. IsFoundIn opened.now.texts (view_with opened.now.form kind
        (F.files opened.now.format.now) (entry_of (F.directory opened.now.format.now opened.now.volume) entry)
        whole.items) (body_view body)) }
{
    if may_have_text(opened.texts, opened.form, kind) {
        return found_with_text(alloc, opened, entry, kind, whole.as_slice());
    }
    let bytes = opened.format.body(&opened.volume, entry, whole)?;
    Ok(Body::File(bytes))
}
