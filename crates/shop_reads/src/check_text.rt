// The text of what a check answers.
ghost use Rattle.std.specs.Prelude.{◌≡◌, Some, IfOk, flat_map, string_bytes};
ghost use Rattle.vol_check.specs.Told.{told_of};
ghost use Rattle.shop_reads.specs.CheckText.{
  accepted_text,
  fault_line,
  fault_name as name_of,
  fault_place as place_of,
  fault_text,
  told_line,
};

use a2_device::Fault;
use std::alloc::{AllocError, Global};
use std::fmt;
use vol_check::Checked;
use vol_layout::{PlaceForm, PlaceWord};

fn fault_name(fault: Fault) -> &'static str
    ensures { result.now ≡ name_of fault }
{
    match fault {
        Fault::Geometry(_) => "Geometry",
        Fault::CatalogLink(_) => "CatalogLink",
        Fault::DirLink(_) => "DirLink",
        Fault::MapPointer(_) => "MapPointer",
        Fault::StorageType(_) => "StorageType",
        Fault::OutOfRange(_) => "OutOfRange",
        Fault::InSystem(_) => "InSystem",
        Fault::Shared(_) => "Shared",
        Fault::MarkedFree(_) => "MarkedFree",
    }
}

fn fault_place(fault: Fault) -> u32
    ensures { result ≡ place_of fault }
{
    match fault {
        Fault::Geometry(place)
        | Fault::CatalogLink(place)
        | Fault::DirLink(place)
        | Fault::MapPointer(place)
        | Fault::StorageType(place)
        | Fault::OutOfRange(place)
        | Fault::InSystem(place)
        | Fault::Shared(place)
        | Fault::MarkedFree(place) => place,
    }
}

/// The text of one fault.
#[derive(Clone, Copy)]
pub struct FaultText {
    pub form: PlaceForm,
    pub fault: Fault,
}

impl fmt::Display for FaultText {
    ghost output = { λ t. Some (fault_text t.form t.fault) };

    fn fmt<W: fmt::Write>(&self, f: &mut fmt::Formatter<W>) -> fmt::Result {
        let name = fault_name(self.fault);
        let place = PlaceWord {
            form: self.form,
            place: fault_place(self.fault),
        };
        write!(f, "FAULT {name} {place}")
    }
}

/// A line for each fault, in their order.
///
/// # Errors
/// Want of memory alone.
pub fn fault_lines(alloc: Global, form: PlaceForm, faults: &[Fault]) -> Result<String, AllocError>
    ensures { IfOk result (λ text. string_bytes text ≡ flat_map (fault_line form) faults.now) }
{
    let mut text = String::new(alloc);
    for fault in faults {
        let line = FaultText {
            form,
            fault: *fault,
        };
        writeln!(text, "{line}")?;
    }
    Ok(text)
}

// How many files and parts an accepted volume has, and how many places are available and lost.
#[derive(Clone, Copy)]
struct AcceptedText {
    files: u32,
    parts: usize,
    available: u32,
    lost: usize,
}

impl fmt::Display for AcceptedText {
    ghost output = { λ t. Some (accepted_text t.files t.parts t.available t.lost) };

    fn fmt<W: fmt::Write>(&self, f: &mut fmt::Formatter<W>) -> fmt::Result {
        let AcceptedText {
            files,
            parts,
            available,
            lost,
        } = *self;
        write!(
            f,
            "ACCEPTED files {files} parts {parts} available {available} lost {lost}"
        )
    }
}

/// The line of an accepted volume.
///
/// # Errors
/// Want of memory alone.
pub fn accepted_line<V: Drop>(alloc: Global, checked: &Checked<V>) -> Result<String, AllocError>
    ensures { IfOk result (λ text. string_bytes text ≡ told_line (told_of checked.now)) }
{
    let line = AcceptedText {
        files: checked.files(),
        parts: checked.parts().len(),
        available: checked.available(),
        lost: checked.lost().len(),
    };
    let mut text = String::new(alloc);
    writeln!(text, "{line}")?;
    Ok(text)
}
