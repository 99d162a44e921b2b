// What the pointers of a file name.
ghost use Rattle.std.specs.Prelude.{◌≡◌, ◌<◌, length};
ghost use Rattle.pro_tree.specs.Content.{pro_slot};
ghost use Rattle.pro_tree.specs.Reach.{pro_link, pro_root, pro_child, pro_pointers, pro_depth};

use crate::pointers::pointer;
use a2_device::{Part, PartKind};
use vol_format::Link;

const SEEDLING: u8 = 0x01;

const SAPLING: u8 = 0x02;

const TREE: u8 = 0x03;

const DIRECTORY: u8 = 0x0d;

/// How many pointers of a master index are used.
const MASTER_POINTERS: u32 = 128;

const INDEX_POINTERS: u32 = 256;

/// What a key pointer names, on a volume of so many blocks, by the storage type of the file's entry.
pub fn root(places: u32, file: u32, storage: u8, key: u32) -> Link
    ensures { result ≡ pro_root places file storage key }
{
    let kind = match storage {
        SEEDLING => PartKind::Body,
        SAPLING => PartKind::Index,
        TREE => PartKind::Master,
        DIRECTORY => return Link::Directory,
        _ => return Link::OtherType,
    };
    link(
        places,
        Part {
            file,
            kind,
            number: 0,
            place: key,
        },
    )
}

/// How many pointers the block of a part has.
pub fn pointer_count(part: &Part) -> u32
    ensures { result ≡ pro_pointers part.now.kind }
{
    match part.kind {
        PartKind::Master => MASTER_POINTERS,
        PartKind::Index => INDEX_POINTERS,
        _ => 0,
    }
}

/// What a pointer of a part's block names, on a volume of so many blocks.
pub fn child(places: u32, part: &Part, unit: &[u8], number: u32) -> Link
    requires unit { length unit.now ≡ 512 }
    requires depth { pro_depth part.now.kind part.now.number < 65536 }
    requires number { number < pro_pointers part.now.kind }
    ensures { result ≡ pro_child places part.now.kind part.now.file part.now.number unit.now number }
{
    let (kind, first) = match part.kind {
        PartKind::Master => (PartKind::Index, MASTER_POINTERS * part.number),
        PartKind::Index => (PartKind::Body, INDEX_POINTERS * part.number),
        _ => return Link::Null,
    };
    link(
        places,
        Part {
            file: part.file,
            kind,
            number: first + number,
            place: pointer(unit, number),
        },
    )
}

/// The pointer that names a part, in the block above it.
pub fn slot(part: &Part) -> u32
    ensures value { result ≡ pro_slot part.now.kind part.now.number }
    ensures within { result < 256 }
{
    match part.kind {
        PartKind::Index => part.number % MASTER_POINTERS,
        PartKind::Body => part.number % INDEX_POINTERS,
        _ => 0,
    }
}

// A part, if the block that names it is one of the volume.
fn link(places: u32, part: Part) -> Link
    ensures { result ≡ pro_link places part.file part.kind part.number part.place }
{
    match part.place {
        0 => Link::Null,
        block if block < places => Link::To(part),
        _ => Link::Wild,
    }
}
