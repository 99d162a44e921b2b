// What it means that two volumes are told to be equal.
ghost use Rattle.std.specs.Prelude.{◌≡◌, Bool, true, ℕ};
ghost use Rattle.a2_device.specs.Device.{DeviceState};
ghost use Rattle.volume_compare.specs.Comparison.{IsComparison};
ghost use Rattle.volume_compare.specs.SameFiles.{AreSameVolumes};
ghost use Rattle.volume_compare.specs.declared.report.Comparison.{Comparison};

use file_formats::FileFormat;
use vol_layout::PlaceForm;

/// Of volumes that are told to be equal each file has a partner in the other, with the same content.
pub fn equal_volumes_have_the_same_files<F: FileFormat>(format: &F, form: PlaceForm)
    ensures { (all : Bool) (most : ℕ) (device device_now other other_now : DeviceState) (comparison : Comparison)
        → IsComparison all form (F.files format.now) (F.meaning format.now) most device device_now other other_now
        comparison
        → comparison.equal ≡ true
        → AreSameVolumes form (F.files format.now) (F.meaning format.now) device.store other.store }
{}
