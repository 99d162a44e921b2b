// What always holds of texts.
ghost use Rattle.std.specs.Prelude.{ℕ, List};
ghost use Rattle.apple_text.specs.declared.form.TextForm.{TextForm};
ghost use Rattle.apple_text.specs.Laws.{AreOne, IsTakenBack, ShownAlike};
ghost use Rattle.apple_text.specs.Shown.{Text, shown_text};
ghost use Rattle.std.specs.Str.{IsUtf8};

/// Bytes that are shown alike are alike but for their highest bits.
pub fn each_text_has_one_form()
    ensures { (a b : List ℕ) → ShownAlike a b }
{}

/// What was shown is taken back, where the highest bits are as the form says.
pub fn what_was_shown_is_taken_back()
    ensures { (form : TextForm) (bytes : List ℕ) → IsTakenBack form bytes }
{}

/// A text is taken for one list of bytes at most.
pub fn a_text_is_taken_in_one_way()
    ensures { (form : TextForm) (text : Text) (a b : List ℕ) → AreOne form text a b }
{}

/// What is shown is UTF-8.
pub fn what_is_shown_is_utf8()
    ensures { (bytes : List ℕ) → IsUtf8 (shown_text bytes) }
{}
