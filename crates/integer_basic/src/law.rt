// What always holds of programs.
ghost use Rattle.std.specs.Prelude.{◌≡◌, ℕ, List};
ghost use Rattle.std.specs.Str.{IsUtf8};
ghost use Rattle.apple_text.specs.Shown.{Text};
ghost use Rattle.integer_basic.specs.Program.{IsListed};

/// A program has one listing at most.
pub fn a_program_has_one_listing()
    ensures { (bytes : List ℕ) (a b : Text) → IsListed bytes a → IsListed bytes b → a ≡ b }
{}

/// What is listed is UTF-8.
pub fn a_listing_is_utf8()
    ensures { (bytes : List ℕ) (text : Text) → IsListed bytes text → IsUtf8 text }
{}
