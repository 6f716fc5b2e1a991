//! Laws of the script's lines, in words of their own.
ghost use Rattle.std.specs.Prelude.{◌≡◌, ℕ, List, Some};
ghost use Rattle.std.specs.List.{join_with_byte};
ghost use Rattle.play_script.specs.declared.step.Step.{Step};
ghost use Rattle.play_script.specs.Forms.{StepForm};
ghost use Rattle.play_script.specs.Parts.{parts_of};
ghost use Rattle.play_script.specs.Steps.{step_from};

/// The words of each form say what the table says of them, and the words of a line, with single spaces between
/// them, are the line.
pub fn each_form_is_read()
    ensures read { (names words : List (List ℕ)) (said : Step) → StepForm names words said → step_from names words ≡ Some said }
    ensures joined { (line : List ℕ) → join_with_byte 32 (parts_of 32 line) ≡ line }
{}

/// Words that say something have one of the forms, and say what the table says of them: no other line asks the Book
/// for anything.
pub fn no_other_line_is_read()
    ensures form { (names words : List (List ℕ)) (said : Step) → step_from names words ≡ Some said → StepForm names words said }
{}
