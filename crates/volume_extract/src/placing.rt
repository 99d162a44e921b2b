// In which directory an entry stands, and in how many.
ghost use Rattle.std.specs.Prelude.{◌≡◌, ◌<◌, List, MatchOption, length};
ghost use Rattle.vol_format.specs.Directory.{entries};
ghost use Rattle.volume_extract.specs.Items.{Item, depth_below};
ghost use Rattle.volume_extract.specs.Kept.{AreKept, StandsBefore};
ghost use Rattle.volume_extract.specs.Placing.{IsPlace, IsTooDeepAt};

use crate::kept::Kept;
use crate::opened::Opened;
use crate::tree_format::TreeFormat;

/// The most directories in which an entry may stand, the volume's own not counted.
const MOST_DEPTH: u8 = 64;

/// Where an entry stands.
#[derive(Clone, Copy)]
pub struct Place {
    /// The entry of its directory, unless that is the volume's.
    pub above: Option<u32>,
    /// In how many directories it stands.
    pub depth: u8,
}

// In how many directories an entry stands that is in this one.
fn depth_below<F: TreeFormat>(opened: &Opened<'_, F>, kept: &[Kept], above: Option<u32>) -> u8
    requires kept { (items : List Item) × AreKept opened.now.form (F.own opened.now.format.now)
        (F.directory opened.now.format.now opened.now.volume) opened.now.naming items kept.now }
    requires above { StandsBefore (length kept.now) above }
    ensures { (items : List Item) → AreKept opened.now.form (F.own opened.now.format.now)
        (F.directory opened.now.format.now opened.now.volume) opened.now.naming items kept.now
        → result ≡ depth_below items above }
{
    match above {
        None => 0,
        Some(directory) => kept[directory as usize].head.depth + 1,
    }
}

/// Where the next entry stands; `None` where it stands in too many directories.
pub fn next_place<F: TreeFormat>(opened: &Opened<'_, F>, kept: &[Kept], entry: u32) -> Option<Place>
    requires entry { entry ≡ length kept.now }
    requires inside { entry < entries (F.directory opened.now.format.now opened.now.volume) }
    requires kept { (items : List Item) × AreKept opened.now.form (F.own opened.now.format.now)
        (F.directory opened.now.format.now opened.now.volume) opened.now.naming items kept.now }
    ensures { (items : List Item) → AreKept opened.now.form (F.own opened.now.format.now)
        (F.directory opened.now.format.now opened.now.volume) opened.now.naming items kept.now
        → MatchOption result
        (IsTooDeepAt (F.own opened.now.format.now) (F.directory opened.now.format.now opened.now.volume) items)
        (IsPlace (F.own opened.now.format.now) (F.directory opened.now.format.now opened.now.volume) items) }
{
    let above = opened.format.above(&opened.volume, entry);
    let depth = depth_below(opened, kept, above);
    if depth > MOST_DEPTH {
        return None;
    }
    Some(Place { above, depth })
}
