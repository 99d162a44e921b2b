// The job that compares the files of a volume with those of another image.
ghost use Rattle.std.specs.Prelude.{◌≡◌, IfErr, IfOk, IsTrue, length};
ghost use Rattle.a2_device.specs.Device.{IsSameDevice};
ghost use Rattle.shop_jobs.specs.declared.input.FileSystem.TheVariants.{Dos as OfDos};
ghost use Rattle.shop_reads.specs.CompareReply.{
  IsCompared,
  IsComparedBeside,
  TellsComparison,
  comparison_status,
  error_reply,
  image_of,
};
ghost use Rattle.shop_reads.specs.Extra.{extra_view};
ghost use Rattle.shop_reads.specs.FileSystems.{file_system_of as file_system_by};
ghost use Rattle.shop_reads.specs.GoingOn.{FailsForLackBy, ReadsBy, TellsFile};
ghost use Rattle.shop_replies.specs.Volume.{HasUnitsOf, OfVolume, RefusesBytes};
ghost use Rattle.vol_format.specs.Fits.{Fits};

use crate::extra::Extra;
use crate::listing::ShownFormat;
use a2_device::{Device, Order};
use a2_image::ImageError;
use a2_media::ImageDevice;
use shop_jobs::{CompareOptions, FileSystem};
use shop_replies::{Failure, Refusal, Reply, Side, Status, Told, device_of, open_volume};
use std::alloc::Global;
use vol_layout::PlaceForm;
use volume_compare::{CompareError, Comparison, compare_volumes};

// The file system whose places are named so.
fn file_system_of(form: PlaceForm) -> FileSystem
    ensures { result ≡ file_system_by form }
{
    match form {
        PlaceForm::Sector => FileSystem::Dos,
        PlaceForm::Block => FileSystem::Prodos,
    }
}

// The image whose volume is the first or the second.
fn image_of(side: volume_compare::Side) -> Side
    ensures { result ≡ image_of side }
{
    match side {
        volume_compare::Side::First => Side::First,
        volume_compare::Side::Second => Side::Second,
    }
}

// The reply where two volumes are not compared.
fn error_reply(error: CompareError) -> Reply
    ensures { result ≡ error_reply error }
{
    match error {
        CompareError::Check(side) => Reply::refused_of(image_of(side), Refusal::Check),
        CompareError::Device(side) => Reply::failed_of(image_of(side), Failure::Device),
        CompareError::TooLarge(side) => Reply::refused_of(image_of(side), Refusal::TooLarge),
        CompareError::Memory => Reply::failed(Failure::Memory),
    }
}

// The status of a comparison.
fn comparison_status(equal: bool) -> Status
    ensures { result ≡ comparison_status equal }
{
    if equal { Status::Done } else { Status::Wrong }
}

// The reply of a comparison.
fn comparison_reply(comparison: Comparison) -> Reply
    ensures { TellsComparison comparison result }
{
    let Comparison { text, equal } = comparison;
    Reply::told(comparison_status(equal), Told::Text(text))
}

// The device of the volume of another image.
fn other_device(
    bytes: Vec<u8>,
    order: Order,
    file_system: FileSystem,
) -> Result<ImageDevice, ImageError>
    ensures device { IfOk result (λ device. OfVolume file_system order bytes.items
        (λ state. ⟦<ImageDevice as Device>⟧.state device ≡ state)) }
    ensures units { IfOk result (λ device. HasUnitsOf file_system (⟦<ImageDevice as Device>⟧.state device)) }
    ensures refused { IfErr result (RefusesBytes file_system order (length bytes.items)) }
{
    let image = open_volume(bytes, order, file_system)?;
    Ok(device_of(image, file_system))
}

/// Which files of the volume on a device differ from those of another image's, which is in this order, and which only
/// one of them has. A file that can't be read is told so, and the others are compared all the same.
pub fn compare_reply<D: Device, F: ShownFormat>(
    alloc: Global,
    device: &mut D,
    format: &F,
    other: Vec<u8>,
    order: Order,
    options: CompareOptions,
) -> Reply
    requires fits { Fits (F.meaning format.now) (D.state device.old) }
    ensures reads { ReadsBy TellsFile result (D.state device.old) (D.state device.new) }
    ensures told { IsTrue (D.state device.old).honest
        → FailsForLackBy TellsFile result (D.state device.old) (D.state device.new)
        → IsCompared options order other.items (F.form format.now) (F.files format.now) (F.meaning format.now)
        (D.state device.old) result }
{
    let form = format.form();
    let mut second = match other_device(other, order, file_system_of(form)) {
        Ok(second) => second,
        Err(error) => return Reply::from(error).of_image(Side::Second),
    };
    let (all, most) = (options.all, options.most);
    match compare_volumes(alloc, device, &mut second, format, form, all, most) {
        Ok(comparison) => comparison_reply(comparison),
        Err(error) => error_reply(error),
    }
}

/// The same of what is read beside the image: `Refused` with `Unknown`, of the second image, where that is no image
/// whose order is known.
pub fn compare_beside<D: Device, F: ShownFormat>(
    alloc: Global,
    device: &mut D,
    format: &F,
    extra: Extra,
    options: CompareOptions,
) -> Reply
    requires fits { Fits (F.meaning format.now) (D.state device.old) }
    ensures reads { ReadsBy TellsFile result (D.state device.old) (D.state device.new) }
    ensures told { IsTrue (D.state device.old).honest
        → FailsForLackBy TellsFile result (D.state device.old) (D.state device.new)
        → IsComparedBeside options (extra_view extra) (F.form format.now) (F.files format.now) (F.meaning format.now)
        (D.state device.old) result }
{
    match extra {
        Extra::Image { bytes, order } => {
            compare_reply(alloc, device, format, bytes, order, options)
        }
        Extra::File(_) => Reply::refused_of(Side::Second, Refusal::Unknown),
    }
}
