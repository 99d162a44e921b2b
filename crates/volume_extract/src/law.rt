// What always holds of what is made of the entries of a volume.
ghost use Rattle.std.specs.Prelude.{List};
ghost use Rattle.a2_device.specs.Device.{DeviceState};
ghost use Rattle.host_folders.specs.declared.entry.Naming.{Naming};
ghost use Rattle.vol_layout.specs.declared.form.PlaceForm.{PlaceForm};
ghost use Rattle.vol_format.specs.Directory.{Directory};
ghost use Rattle.volume_extract.specs.Items.{Item};
ghost use Rattle.volume_extract.specs.Laws.{HaveOwnPaths, HaveSafePaths, IsTextOfLines, TextsHaveOwnPaths};
ghost use Rattle.volume_extract.specs.Source.{AreItemsAt, contents_at, source_of};
ghost use Rattle.volume_extract.specs.declared.texts.Texts.{Texts};

use crate::tree_format::TreeFormat;

/// The text of an extraction is the lines of its entries, one behind the other, and its last line.
pub fn the_lines_are_the_text()
    ensures { (items : List Item) → IsTextOfLines items }
{}

/// Of two items of a volume the paths differ, letters of either case taken as one; so no two are made at one path, on
/// no file system.
pub fn no_two_are_made_at_one_path<F: TreeFormat>(format: &F)
    ensures { (form : PlaceForm) (naming : Naming) (texts : Texts) (directory : Directory)
        (device device_now : DeviceState) (items : List Item)
        → AreItemsAt
        (source_of form naming texts (F.files format.now) (F.meaning format.now) (F.own format.now) directory) device
        (contents_at
        (source_of form naming texts (F.files format.now) (F.meaning format.now) (F.own format.now) directory) device
        device_now) items
        → HaveOwnPaths items }
{}

/// Where files have a type in their names, the path of no readable form is that of a file, letters of either case taken
/// as one, and of two readable forms the paths differ.
pub fn no_text_is_made_at_another_path<F: TreeFormat>(format: &F)
    ensures { (form : PlaceForm) (naming : Naming) (texts : Texts) (directory : Directory)
        (device device_now : DeviceState) (items : List Item)
        → AreItemsAt
        (source_of form naming texts (F.files format.now) (F.meaning format.now) (F.own format.now) directory) device
        (contents_at
        (source_of form naming texts (F.files format.now) (F.meaning format.now) (F.own format.now) directory) device
        device_now) items
        → TextsHaveOwnPaths naming items }
{}

/// The path of an item is one of safe names, and leads out of no folder; so is that of its readable form.
pub fn each_path_is_safe<F: TreeFormat>(format: &F)
    ensures { (form : PlaceForm) (naming : Naming) (texts : Texts) (directory : Directory)
        (device device_now : DeviceState) (items : List Item)
        → AreItemsAt
        (source_of form naming texts (F.files format.now) (F.meaning format.now) (F.own format.now) directory) device
        (contents_at
        (source_of form naming texts (F.files format.now) (F.meaning format.now) (F.own format.now) directory) device
        device_now) items
        → HaveSafePaths items }
{}
