// Two volumes compared.
ghost use Rattle.std.specs.Prelude.{◌≡◌, IfErr, IfOk, IsTrue};
ghost use Rattle.file_cmds.specs.ReadingOn.{ReadsOn};
ghost use Rattle.vol_format.specs.Fits.{Fits};
ghost use Rattle.volume_compare.specs.Comparison.{IsComparison, IsRefused, TellsAll};
ghost use Rattle.volume_compare.specs.Findings.{compared_in};
ghost use Rattle.volume_compare.specs.Pairs.{ArePairs, paths_of};
ghost use Rattle.volume_compare.specs.TooLarge.{IsTooLarge};

use crate::error::CompareError;
use crate::finding::Side;
use crate::looking::Volumes;
use crate::pairing::pair_files;
use crate::report::Comparison;
use crate::telling::{tell_first, tell_second};
use a2_device::Device;
use file_cmds::read_volume;
use file_formats::FileFormat;
use std::alloc::Global;
use vol_layout::PlaceForm;

// Compares two volumes that were read.
fn compare_read<D: Device, E: Device, F: FileFormat>(
    alloc: Global,
    first: &mut D,
    second: &mut E,
    volumes: &Volumes<'_, F>,
    all: bool,
    most: u64,
) -> Result<Comparison, CompareError>
    requires fits { Fits (F.meaning volumes.now.format.now) (D.state first.old) }
    requires other_fits { Fits (F.meaning volumes.now.format.now) (E.state second.old) }
    requires places { (F.directory volumes.now.format.now volumes.now.first).places ≡ (D.state first.old).places }
    requires other_places { (F.directory volumes.now.format.now volumes.now.second).places
        ≡ (E.state second.old).places }
    requires pairs { ArePairs
        (paths_of (F.files volumes.now.format.now) (F.directory volumes.now.format.now volumes.now.first))
        (paths_of (F.files volumes.now.format.now) (F.directory volumes.now.format.now volumes.now.second))
        volumes.now.pairs.partners.items volumes.now.pairs.taken.items }

    ensures reads { ReadsOn (D.state first.old) (D.state first.new) }
    ensures other_reads { ReadsOn (E.state second.old) (E.state second.new) }
    ensures told { IsTrue (D.state first.old).honest → IsTrue (E.state second.old).honest
        → IfOk result (TellsAll all volumes.now.form
        (compared_in volumes.now.form (F.files volumes.now.format.now) (F.meaning volumes.now.format.now)
        (F.directory volumes.now.format.now volumes.now.first) (F.directory volumes.now.format.now volumes.now.second)
        (D.state first.old) (D.state first.new) (E.state second.old) (E.state second.new)) most) }
    ensures over { IsTrue (D.state first.old).honest → IsTrue (E.state second.old).honest → IfErr result (IsTooLarge
        (compared_in volumes.now.form (F.files volumes.now.format.now) (F.meaning volumes.now.format.now)
        (F.directory volumes.now.format.now volumes.now.first) (F.directory volumes.now.format.now volumes.now.second)
        (D.state first.old) (D.state first.new) (E.state second.old) (E.state second.new)) most) }
{
    let begun = tell_first(alloc, first, second, volumes, all, most)?;
    let (mut progress, mut files) = (begun.progress, begun.files);
    let told = tell_second(alloc, second, volumes, &mut files, &mut progress);
    if let Err(error) = told {
        return Err(error);
    }
    Ok(progress.report.finish()?)
}

/// Compares the files of two volumes of one format.
///
/// # Errors
/// `Check` where the header, the directory or the map's pointer of a volume has a fault, and `Device` where they can't
/// be read; `TooLarge` where the files of a volume have more bytes than `most`; each of the first volume before the
/// second, and `TooLarge` last. `Memory`.
pub fn compare_volumes<D: Device, E: Device, F: FileFormat>(
    alloc: Global,
    first: &mut D,
    second: &mut E,
    format: &F,
    form: PlaceForm,
    all: bool,
    most: u64,
) -> Result<Comparison, CompareError>
    requires fits { Fits (F.meaning format.now) (D.state first.old) }
    requires other_fits { Fits (F.meaning format.now) (E.state second.old) }

    ensures reads { ReadsOn (D.state first.old) (D.state first.new) }
    ensures other_reads { ReadsOn (E.state second.old) (E.state second.new) }
    ensures compared { IsTrue (D.state first.old).honest → IsTrue (E.state second.old).honest
        → IfOk result (IsComparison all form (F.files format.now) (F.meaning format.now) most
        (D.state first.old) (D.state first.new) (E.state second.old) (E.state second.new)) }
    ensures refused { IsTrue (D.state first.old).honest → IsTrue (E.state second.old).honest
        → IfErr result (IsRefused form (F.files format.now) (F.meaning format.now) most
        (D.state first.old) (D.state first.new) (E.state second.old) (E.state second.new)) }
{
    let one = match read_volume(first, format) {
        Ok(volume) => volume,
        Err(error) => return Err(CompareError::of(Side::First, error)),
    };
    let other = match read_volume(second, format) {
        Ok(volume) => volume,
        Err(error) => return Err(CompareError::of(Side::Second, error)),
    };
    let pairs = pair_files(alloc, format, &one, &other)?;
    let volumes = Volumes {
        format,
        form,
        first: one,
        second: other,
        pairs,
    };
    compare_read(alloc, first, second, &volumes, all, most)
}
