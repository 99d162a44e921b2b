// The parts that a walk over one file answers, and those of the volume.
ghost use Rattle.std.specs.Prelude.{◌≡◌, ◌↔◌, ℕ, Bool, List, Some, slice_get};
ghost use Rattle.pro_dir.specs.Entry.{key_of, storage_of};
ghost use Rattle.pro_dir.specs.Volume.{Directory as Tree, Describes};
ghost use Rattle.pro_tree.specs.File.{InFile};
ghost use Rattle.pro_tree.specs.Parts.{IsPartsOf as IsWalkOf};
ghost use Rattle.vol_format.specs.Directory.{Directory};
ghost use Rattle.vol_format.specs.Reach.{Reach};
ghost use Rattle.vol_format.specs.Layout.{IsPartsOfFile};
ghost use Rattle.pro_format.specs.Pro.{DescribesPro, pro_meaning};

use a2_device::Part;
use pro_dir::Entry;

/// A law: what the key pointer of an entry reaches is what the file of this entry has on the volume, and so are, in
/// order, the parts that `pro_tree::walk` answers.
pub fn a_walk_tells_the_parts_of_its_file()
    ensures part { (reserved : List Bool) (store : List (List ℕ)) (directory : Directory) (tree : Tree) (file : ℕ)
        (entry : Entry) (part : Part)
        → DescribesPro reserved store directory → Describes store tree → slice_get tree.entries file ≡ Some entry
        → InFile store file (storage_of entry.bytes) (key_of entry) part
        ↔ (Reach (pro_meaning reserved) directory store part × (part.file ≡ file)) }
    ensures parts { (reserved : List Bool) (store : List (List ℕ)) (directory : Directory) (tree : Tree) (file : ℕ)
        (entry : Entry) (parts : List Part)
        → DescribesPro reserved store directory → Describes store tree → slice_get tree.entries file ≡ Some entry
        → IsWalkOf store file (storage_of entry.bytes) (key_of entry) parts
        ↔ IsPartsOfFile (pro_meaning reserved) directory store file parts }
{}
