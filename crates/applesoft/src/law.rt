// What always holds of programs.
ghost use Rattle.std.specs.Prelude.{◌≡◌, ℕ, List};
ghost use Rattle.apple_text.specs.Shown.{Text};
ghost use Rattle.applesoft.specs.Laws.{IsItsListing, IsLinked};
ghost use Rattle.applesoft.specs.Program.{IsListed};
ghost use Rattle.applesoft.specs.Tokens.{IsTokenized};

/// A program has one listing at most.
pub fn a_program_has_one_listing()
    ensures { (bytes : List ℕ) (a b : Text) → IsListed bytes a → IsListed bytes b → a ≡ b }
{}

/// A text is one program at most.
pub fn a_text_is_one_program()
    ensures { (text : Text) (a b : List ℕ) → IsTokenized text a → IsTokenized text b → a ≡ b }
{}

/// A program that was made from a text is linked: each link is $0801 and the place of the next line, the numbers rise,
/// and two bytes $00 stand at the end.
pub fn a_tokenized_program_is_linked()
    ensures { (text : Text) (program : List ℕ) → IsTokenized text program → IsLinked program }
{}

/// A program that was made from a text lists as a text, and that text is the program.
pub fn a_listing_is_its_program()
    ensures { (text : Text) (program : List ℕ) → IsTokenized text program → IsItsListing program }
{}
