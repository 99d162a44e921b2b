// That a volume has one map.
ghost use Rattle.std.specs.Prelude.{◌≡◌, ℕ, List};
ghost use Rattle.shop_reads.specs.MapReply.{IsMapText};

use crate::listing::ShownFormat;
use vol_format::WritableFormat;

/// A law: a volume has one map at most.
pub fn a_volume_has_one_map<F: ShownFormat + WritableFormat>(format: &F)
    ensures { (store : List (List ℕ)) (text other : List ℕ)
        → IsMapText (F.form format.now) (F.meaning format.now) (F.meaning (F.unreserved format.now)) store text
        → IsMapText (F.form format.now) (F.meaning format.now) (F.meaning (F.unreserved format.now)) store other
        → text ≡ other }
{}
