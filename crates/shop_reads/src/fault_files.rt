// The files of the faults of a volume, for who explains them.
ghost use Rattle.std.specs.Prelude.{
  ◌≡◌,
  ◌<◌,
  ◌++◌,
  ℕ,
  All,
  IfNone,
  IfOk,
  IfSome,
  OnOk,
  Some,
  false,
  length,
  slice_index_or,
  string_bytes,
  true,
};
ghost use Rattle.a2_device.specs.declared.fault.Fault.{Fault};
ghost use Rattle.vol_format.specs.Directory.{entries};
ghost use Rattle.shop_reads.specs.FaultLines.{file_fault_text, file_line, file_lines, first_of, is_of};

use crate::check_text::FaultText;
use a2_device::Fault;
use file_formats::FileFormat;
use file_listings::ShownPath;
use std::alloc::{AllocError, Global};
use std::fmt;
use vol_check::Faults;
use vol_layout::PlaceForm;

/// The kinds of the faults that are of a file.
#[derive(Clone, Copy)]
pub enum FaultKind {
    StorageType,
    OutOfRange,
    InSystem,
    Shared,
    MarkedFree,
}

/// All of them.
static KINDS: [FaultKind; 5] = [
    FaultKind::StorageType,
    FaultKind::OutOfRange,
    FaultKind::InSystem,
    FaultKind::Shared,
    FaultKind::MarkedFree,
];

// Whether a fault is of a kind.
fn is_of(kind: FaultKind, fault: Fault) -> bool
    ensures { result ≡ is_of kind fault }
{
    match (kind, fault) {
        (FaultKind::StorageType, Fault::StorageType(_))
        | (FaultKind::OutOfRange, Fault::OutOfRange(_))
        | (FaultKind::InSystem, Fault::InSystem(_))
        | (FaultKind::Shared, Fault::Shared(_))
        | (FaultKind::MarkedFree, Fault::MarkedFree(_)) => true,
        _ => false,
    }
}

// A fault, with the path of the file that it is of.
#[derive(Clone, Copy)]
struct FileFaultText<'a> {
    form: PlaceForm,
    fault: Fault,
    path: &'a [u8],
}

impl fmt::Display for FileFaultText<'_> {
    ghost output = { λ t. Some (file_fault_text t.form t.fault t.path.now) };

    fn fmt<W: fmt::Write>(&self, f: &mut fmt::Formatter<W>) -> fmt::Result {
        let fault = FaultText {
            form: self.form,
            fault: self.fault,
        };
        let path = ShownPath {
            form: self.form,
            path: self.path,
        };
        write!(f, "{fault} {path}")
    }
}

// The first fault of a kind, by its number.
fn first_of(faults: &[Fault], kind: FaultKind) -> Option<usize>
    ensures some { IfSome result (λ number. number < length faults.now) }
    ensures is { IfSome result (λ number. (d : Fault) → is_of kind (slice_index_or faults.now number d) ≡ true) }
    ensures first { IfSome result (λ number. (earlier : ℕ) (d : Fault) → earlier < number
        → is_of kind (slice_index_or faults.now earlier d) ≡ false) }
    ensures none { IfNone result ((number : ℕ) (d : Fault) → number < length faults.now
        → is_of kind (slice_index_or faults.now number d) ≡ false) }
{
    faults.iter().position(|fault| is_of(kind, *fault))
}

// Puts the line of the first fault of a kind behind a text, if there is one that is of a file.
fn add_line<F: FileFormat>(
    alloc: Global,
    form: PlaceForm,
    format: &F,
    volume: &F::Volume,
    faults: &Faults,
    kind: FaultKind,
    text: &mut String,
) -> Result<(), AllocError>
    requires { All (λ file. file < entries (F.directory format.now volume.now)) faults.now.files }
    ensures { OnOk result (string_bytes text.new ≡ string_bytes text.old
        ++ file_line form (F.files format.now) (F.directory format.now volume.now) (first_of faults.now kind)) }
{
    let Some(number) = first_of(faults.as_slice(), kind) else {
        return Ok(());
    };
    let Some(file) = faults.file_of(number) else {
        return Ok(());
    };
    let entry = format.list_entry(alloc, volume, file)?;
    let line = FileFaultText {
        form,
        fault: faults.as_slice()[number],
        path: entry.path.as_bytes(),
    };
    writeln!(text, "{line}")?;
    Ok(())
}

/// For the first fault of each kind that is of a file a line with the file's path.
///
/// # Errors
/// Want of memory alone.
pub fn file_lines<F: FileFormat>(
    alloc: Global,
    form: PlaceForm,
    format: &F,
    volume: &F::Volume,
    faults: &Faults,
) -> Result<String, AllocError>
    requires { All (λ file. file < entries (F.directory format.now volume.now)) faults.now.files }
    ensures { IfOk result (λ text. string_bytes text
        ≡ file_lines form (F.files format.now) (F.directory format.now volume.now) faults.now) }
{
    let mut text = String::new(alloc);
    for kind in &KINDS {
        add_line(alloc, form, format, volume, faults, *kind, &mut text)?;
    }
    Ok(text)
}
