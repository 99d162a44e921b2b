//! What holds of the texts of certificates, and of the certificate of a shortest plan. Each law is a function with
//! nothing to do: its contract is the law.

ghost use Rattle.std.specs.Prelude.{◌≡◌, ◌++◌, ℕ, List, [], length};
ghost use Rattle.vol_layout.specs.Layouts.{IsTarget, Placement, misplaced};
ghost use Rattle.vol_layout.specs.Plans.{IsPlan, after};
ghost use Rattle.vol_layout.specs.Rings.{AreAllRings, IsDeficit};
ghost use Rattle.vol_layout.specs.declared.moves.Move.{Move};
ghost use Rattle.ring_cert.specs.Certificates.{Certificate, HasText, certificate_of, certificate_text};
ghost use Rattle.ring_cert.specs.Good.{IsGood};

/// Each certificate has a text of its own, and no text is another with something after it.
pub fn each_text_has_one_certificate()
    ensures one { (c d : Certificate) → HasText c → HasText d → certificate_text c ≡ certificate_text d → c ≡ d }
    ensures whole { (c d : Certificate) (more : List ℕ)
        → HasText c → HasText d → certificate_text c ≡ certificate_text d ++ more → more ≡ [] }
{}

/// The certificate of a shortest plan with its misplaced parts and all rings is good for its layout, and so is each
/// with the same text.
pub fn the_certificate_of_a_shortest_plan_is_good()
    ensures { (layout : Placement) (rings : List (List ℕ)) (moves : List Move) (c : Certificate)
        → IsPlan layout.at layout.places moves → IsTarget (after layout.at moves) → IsDeficit layout.at (length moves)
        → AreAllRings layout.at rings → HasText (certificate_of layout (misplaced layout.at) rings moves)
        → HasText c → certificate_text c ≡ certificate_text (certificate_of layout (misplaced layout.at) rings moves)
        → IsGood layout c }
{}
