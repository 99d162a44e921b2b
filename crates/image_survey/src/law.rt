// What always holds of the lines that tell which images are the same.
ghost use Rattle.std.specs.Prelude.{ℕ, List, Option};
ghost use Rattle.image_survey.specs.Same.{StandApart, TellsShared};
ghost use Rattle.image_survey.specs.Told.{Told};
ghost use Rattle.image_survey.specs.declared.same.SameLine.{SameLine};

/// It is told exactly of the images whose content, or whose disk, another has that they are the same as another.
pub fn each_image_with_the_content_of_another_is_told()
    ensures { (keys : List (Option (List ℕ))) (lines : List SameLine) (n : ℕ) → TellsShared keys lines n }
{}

/// No file is told to be the same as itself: of the images that may be told so no two stand in one file.
pub fn no_file_is_the_same_as_itself()
    ensures { (told : List Told) (one other : ℕ) → StandApart told one other }
{}
