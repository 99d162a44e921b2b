// Which of the parts of files has the pointer to another.
ghost use Rattle.std.specs.Prelude.{◌≡◌, ◌<◌, ℕ, length, IfSome, IfNone};
ghost use Rattle.pro_tree.specs.Above.{IsAbove, is_above};

use a2_device::{Part, PartKind};

// Whether blocks of a kind name parts of another.
fn is_above(above: PartKind, below: PartKind) -> bool
    ensures { result ≡ is_above above below }
{
    match above {
        PartKind::Master => matches!(below, PartKind::Index),
        PartKind::Index => matches!(below, PartKind::Body),
        _ => false,
    }
}

/// The part that names part k, where the parts of each file are in order: for a unit of the body the nearest index
/// before it, and for an index the nearest master index; `None` where its file has none before it.
pub fn part_above(parts: &[Part], k: u32) -> Option<u32>
    requires { k < length parts.now }
    ensures some { IfSome result (λ above. IsAbove parts.now k above) }
    ensures none { IfNone result ((above : ℕ) → IsAbove parts.now k above → ⊥) }
{
    for above in (0..k).rev() {
        if parts[above as usize].file != parts[k as usize].file {
            return None;
        }
        if is_above(parts[above as usize].kind, parts[k as usize].kind) {
            return Some(above);
        }
    }
    None
}
