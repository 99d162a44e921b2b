//! No plan is shorter than the deficit of the layout from which it starts. Each law is a function
//! with nothing to do: its contract is the law.

ghost use Rattle.std.specs.Prelude.{◌≡◌, ℕ, ◌+◌, ◌≤◌, ◌++◌, List, length, All};
ghost use Rattle.vol_layout.specs.Layouts.{AreDistinct, IsLayout, IsMisplaced, IsTarget};
ghost use Rattle.vol_layout.specs.Plans.{IsPlan, after};
ghost use Rattle.vol_layout.specs.Rings.{AreApart, IsDeficit, IsRing};
ghost use Rattle.vol_layout.specs.declared.moves.Move.{Move};

/// No plan reaches the target in fewer moves than the deficit.
pub fn no_plan_is_shorter()
    ensures { (c : List ℕ) (places deficit : ℕ) (plan : List Move)
        → IsDeficit c deficit → IsPlan c places plan → IsTarget (after c plan)
        → deficit ≤ length plan }
{}

/// Distinct misplaced parts, and rings of which no two have a part in common, show that no plan to
/// the target is shorter than their number.
pub fn no_plan_beats_a_certificate()
    ensures { (c : List ℕ) (places : ℕ) (off : List ℕ) (rings : List (List ℕ)) (plan : List Move)
        → AreDistinct off → All (IsMisplaced c) off → AreApart rings → All (IsRing c) rings
        → IsPlan c places plan → IsTarget (after c plan)
        → length off + length rings ≤ length plan }
{}

/// A layout has one deficit at most, and moves lower it by no more than their number.
pub fn deficit_falls_slowly()
    ensures one { (c : List ℕ) (d e : ℕ) → IsDeficit c d → IsDeficit c e → d ≡ e }
    ensures slowly { (c : List ℕ) (places d e : ℕ) (plan : List Move)
        → IsDeficit c d → IsPlan c places plan → IsDeficit (after c plan) e
        → d ≤ length plan + e }
{}

/// Each layout has a deficit.
pub fn each_layout_has_a_deficit()
    ensures { (c : List ℕ) (places : ℕ) → IsLayout c places → (d : ℕ) × IsDeficit c d }
{}

/// What is left of a shortest plan has as many moves as the deficit of the layout in between.
pub fn the_rest_of_a_shortest_plan()
    ensures { (c : List ℕ) (places : ℕ) (made left : List Move)
        → IsLayout c places → IsPlan c places (made ++ left) → IsTarget (after c (made ++ left))
        → IsDeficit c (length (made ++ left)) → IsDeficit (after c made) (length left) }
{}
