// The plan of a new file whose parts have places. Each law is a function with nothing to do: its contract is the law.
ghost use Rattle.std.specs.Prelude.{◌≡◌, ◌<◌, ℕ, Bool, List, length};
ghost use Rattle.a2_device.specs.Device.{unit_at};
ghost use Rattle.dos_catalog.specs.declared.slot.NewEntry.{NewEntry};
ghost use Rattle.vol_format.specs.declared.link.Link.TheVariants.{To};
ghost use Rattle.dos_format.specs.Dos.{CanNameDos, dos_meaning};
ghost use Rattle.pro_tree.specs.Content.{CanNameBlock};
ghost use Rattle.pro_tree.specs.Reach.{pro_root};
ghost use Rattle.pro_format.specs.Pro.{pro_meaning};
ghost use Rattle.vol_laws.specs.Built.{Planned, IsBodyOf, IsBuilt, IsRisingPlan, part_of, place_of, unit_of};
ghost use Rattle.dos_format.specs.Slots.{new_listed};
ghost use Rattle.pro_format.specs.Plan.{IsProPlan};
ghost use Rattle.edit_formats.specs.declared.new_part.NewPart.{NewPart};
ghost use Rattle.edit_formats.specs.Order.{AreDosParts, AreProParts, HasStored};
ghost use Rattle.edit_formats.specs.ListUnit.{HasListUnits};
ghost use Rattle.edit_formats.specs.Placed.{HavePlaces, HasPlaced, HasBodyUnits, plan_with, stored_units};
ghost use Rattle.edit_formats.specs.TableUnit.{HasTableUnits};

/// A law: the parts of a DOS 3.3 file at their places, each list with its unit, are what an entry that points to the
/// first list leads to. The numbers of the body rise, so that the body of the plan is its units of the body in order.
pub fn a_placed_dos_file_is_built()
    ensures built { (data_disk : Bool) (reserved : List Bool) (count file : ℕ) (parts : List NewPart) (places : List ℕ)
        (planned : List Planned)
        → AreDosParts parts → HavePlaces CanNameDos parts places → HasPlaced file parts places planned
        → HasListUnits parts places planned
        → IsBuilt (dos_meaning data_disk reserved) count planned (To (part_of planned 0)) }
    ensures entry { (data_disk : Bool) (reserved : List Bool) (count file : ℕ) (parts : List NewPart) (places : List ℕ)
        (planned : List Planned) (place slot : ℕ) (new : NewEntry)
        → AreDosParts parts → HavePlaces CanNameDos parts places → HasPlaced file parts places planned
        → HasListUnits parts places planned
        → new.pointer ≡ place_of planned 0
        → IsBuilt (dos_meaning data_disk reserved) count planned (new_listed file place slot new).root }
    ensures rising { (file : ℕ) (parts : List NewPart) (places : List ℕ) (planned : List Planned)
        → AreDosParts parts → HasPlaced file parts places planned → IsRisingPlan planned }
{}

/// A law: the parts of a ProDOS file at their places, each index and the master index with its block, are a plan, and
/// what an entry with the place of the first part for its key pointer leads to.
pub fn a_placed_pro_file_is_built()
    ensures plan { (count file storage : ℕ) (parts : List NewPart) (places : List ℕ) (planned : List Planned)
        → AreProParts storage parts → HavePlaces (CanNameBlock count) parts places → HasPlaced file parts places planned
        → HasTableUnits parts places planned
        → IsProPlan count file planned }
    ensures built { (reserved : List Bool) (count file storage : ℕ) (parts : List NewPart) (places : List ℕ)
        (planned : List Planned)
        → AreProParts storage parts → HavePlaces (CanNameBlock count) parts places → HasPlaced file parts places planned
        → HasTableUnits parts places planned
        → IsBuilt (pro_meaning reserved) count planned (pro_root count file storage (place_of planned 0)) }
    ensures rising { (file storage : ℕ) (parts : List NewPart) (places : List ℕ) (planned : List Planned)
        → AreProParts storage parts → HasPlaced file parts places planned → IsRisingPlan planned }
{}

/// A law: a unit for each part makes a plan of the parts.
pub fn a_plan_with_units_has_its_parts()
    ensures parts { (file : ℕ) (parts : List NewPart) (places : List ℕ) (units : List (List ℕ))
        → HasPlaced file parts places (plan_with file parts places units) }
    ensures units { (file : ℕ) (parts : List NewPart) (places : List ℕ) (units : List (List ℕ)) (k : ℕ)
        → k < length parts
        → unit_of (plan_with file parts places units) k ≡ unit_at units k }
{}

/// A law: where the parts of the body are the units that are stored, each with its unit of the file, these units are
/// the body of the plan.
pub fn a_placed_file_has_its_body()
    ensures { (file : ℕ) (stored : List Bool) (content : List (List ℕ)) (parts : List NewPart) (places : List ℕ)
        (planned : List Planned)
        → HasStored stored parts → HasPlaced file parts places planned → HasBodyUnits parts content planned
        → IsBodyOf planned (stored_units stored content) }
{}
