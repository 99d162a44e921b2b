// The blocks of a new file, built after a plan.
ghost use Rattle.std.specs.Prelude.{◌≡◌, ◌≢◌, ◌<◌, ◌+◌, ◌%◌, ℕ, Bool, List, length, replicate};
ghost use Rattle.a2_device.specs.declared.part.Part.{Part};
ghost use Rattle.a2_device.specs.declared.part.PartKind.{PartKind};
ghost use Rattle.vol_format.specs.declared.link.Link.{Link};
ghost use Rattle.vol_format.specs.declared.link.Link.TheVariants.{To};
ghost use Rattle.pro_tree.specs.Content.{CanNameBlock};
ghost use Rattle.pro_tree.specs.Pointers.{with_pointer};
ghost use Rattle.pro_tree.specs.Reach.{pro_root};
ghost use Rattle.pro_format.specs.Pro.{pro_meaning};
ghost use Rattle.vol_laws.specs.Built.{Planned, IsBuilt, part_of};
ghost use Rattle.vol_laws.specs.Inserted.{in_file};
ghost use Rattle.pro_format.specs.Plan.{
  ArePlannedParts,
  ArePointed,
  HasPointers,
  IsBelow,
  IsProPlan,
  IsStorageOf,
  IsTable,
  part_at,
  parts_of,
  seedling_plan,
};

/// A law: a plan's blocks are a file, where its entry points to the first part: each pointer names a part of the plan
/// or nothing, and each part is named.
///
/// `root`: an entry points to a first part, where it has the part's block for its key pointer and the storage type for
/// the part's kind. `whole`: parts in the order of a plan are a plan, once each index and master index has its
/// pointers. `seedling`: one block of the body alone is a plan.
pub fn a_planned_file_is_built()
    ensures built { (reserved : List Bool) (places file : ℕ) (planned : List Planned) (root : Link)
        → IsProPlan places file planned → root ≡ To (part_of planned 0)
        → IsBuilt (pro_meaning reserved) places planned root }
    ensures root { (places file storage : ℕ) (part : Part) → CanNameBlock places part.place
        → IsStorageOf storage part.kind → part.number ≡ 0
        → pro_root places file storage part.place ≡ To (in_file part file) }
    ensures whole { (places file : ℕ) (planned : List Planned) → ArePlannedParts places file (parts_of planned)
        → ArePointed (parts_of planned) planned
        → IsProPlan places file planned }
    ensures seedling { (places file place : ℕ) (unit : List ℕ) → CanNameBlock places place
        → IsProPlan places file (seedling_plan file place unit) }
{}

/// A law: an index, or a master index, gets its pointers one after the other.
///
/// `start`: a block of zeros names nothing. `skipped`: a part that another block names leaves it as it is. `written`: a
/// pointer written to a part that this block names adds this part, where no part before it has its kind and number.
pub fn an_index_is_written_pointer_by_pointer()
    ensures start { (table : Part) (width : ℕ) (child : PartKind) (parts : List Part) → IsTable table.kind width child
        → HasPointers table width child parts 0 (replicate 512 0) }
    ensures skipped { (table : Part) (width : ℕ) (child : PartKind) (parts : List Part) (upto : ℕ) (unit : List ℕ)
        → IsTable table.kind width child
        → HasPointers table width child parts upto unit → ¬ IsBelow table width child (part_at parts upto)
        → HasPointers table width child parts (upto + 1) unit }
    ensures written { (table : Part) (width : ℕ) (child : PartKind) (parts : List Part) (upto : ℕ) (unit : List ℕ)
        → IsTable table.kind width child
        → HasPointers table width child parts upto unit → length unit ≡ 512
        → IsBelow table width child (part_at parts upto)
        → ((m : ℕ) → m < upto → (part_at parts m).kind ≡ child → (part_at parts m).number ≢ (part_at parts upto).number)
        → HasPointers table width child parts (upto + 1)
        (with_pointer ((part_at parts upto).number % width) (part_at parts upto).place unit) }
{}
