// The lists and the body of a new file, as they are planned and as they are written.
ghost use Rattle.std.specs.Prelude.{◌≡◌, ◌≢◌, ◌<◌, ◌≤◌, ◌+◌, ◌/◌, ◌%◌, ℕ, Bool, List, length, replicate};
ghost use Rattle.vol_format.specs.declared.link.Link.TheVariants.{To};
ghost use Rattle.dos_catalog.specs.declared.slot.NewEntry.{NewEntry};
ghost use Rattle.dos_catalog.specs.Writes.{with_place};
ghost use Rattle.dos_tslist.specs.Pointers.{pair_offset, link_offset};
ghost use Rattle.dos_format.specs.Dos.{dos_meaning};
ghost use Rattle.vol_laws.specs.Built.{Planned, IsBuilt, part_of, place_of};
ghost use Rattle.dos_format.specs.Plan.{IsDosPlan, HasPairs, HasLink, HaveSameParts};
ghost use Rattle.dos_format.specs.Slots.{new_listed};

/// A law: the lists and the body of a plan of DOS 3.3, as units, are what an entry that points to the first list leads
/// to.
pub fn a_planned_file_is_built()
    ensures built { (data_disk : Bool) (reserved : List Bool) (places file count : ℕ) (planned : List Planned)
        → IsDosPlan file count planned
        → IsBuilt (dos_meaning data_disk reserved) places planned (To (part_of planned 0)) }
    ensures entry { (data_disk : Bool) (reserved : List Bool) (places file count : ℕ) (planned : List Planned)
        (place slot : ℕ) (new : NewEntry)
        → IsDosPlan file count planned → new.pointer ≡ place_of planned 0
        → IsBuilt (dos_meaning data_disk reserved) places planned (new_listed file place slot new).root }
{}

/// A law: the pairs of a list come to stand by writing the pair of one part after another into zeros. A part of another
/// list needs no pair, and a link that is written leaves the pairs.
pub fn a_list_is_written_pair_by_pair()
    ensures start { (count : ℕ) (planned : List Planned) (n : ℕ) → HasPairs count planned n count (replicate 256 0) }
    ensures pair { (count : ℕ) (planned : List Planned) (n upto : ℕ) (unit : List ℕ)
        → HasPairs count planned n upto unit → length unit ≡ 256 → count ≤ upto
        → (part_of planned upto).number / 122 ≡ n
        → ((m : ℕ) → count ≤ m → m < upto → (part_of planned m).number ≢ (part_of planned upto).number)
        → HasPairs count planned n (upto + 1)
        (with_place (pair_offset ((part_of planned upto).number % 122)) (place_of planned upto) unit) }
    ensures skip { (count : ℕ) (planned : List Planned) (n upto later : ℕ) (unit : List ℕ)
        → HasPairs count planned n upto unit → upto ≤ later
        → ((m : ℕ) → upto ≤ m → m < later → (part_of planned m).number / 122 ≢ n)
        → HasPairs count planned n later unit }
    ensures link { (count : ℕ) (planned : List Planned) (n upto place : ℕ) (unit : List ℕ)
        → HasPairs count planned n upto unit → HasPairs count planned n upto (with_place link_offset place unit) }
    ensures parts { (count : ℕ) (planned other : List Planned) (n upto : ℕ) (unit : List ℕ)
        → HaveSameParts planned other → HasPairs count planned n upto unit → HasPairs count other n upto unit }
{}

/// A law: the link of a list comes to stand by writing it; the last list has zeros there, and a pair that is written
/// leaves the link.
pub fn the_link_of_a_list_is_written()
    ensures next { (count : ℕ) (planned : List Planned) (n : ℕ) (unit : List ℕ)
        → length unit ≡ 256 → n + 1 < count
        → HasLink count planned n (with_place link_offset (place_of planned (n + 1)) unit) }
    ensures last { (count : ℕ) (planned : List Planned) (n : ℕ) → n + 1 ≡ count
        → HasLink count planned n (replicate 256 0) }
    ensures pair { (count : ℕ) (planned : List Planned) (n number place : ℕ) (unit : List ℕ)
        → HasLink count planned n unit → HasLink count planned n (with_place (pair_offset number) place unit) }
    ensures parts { (count : ℕ) (planned other : List Planned) (n : ℕ) (unit : List ℕ)
        → HaveSameParts planned other → HasLink count planned n unit → HasLink count other n unit }
{}
