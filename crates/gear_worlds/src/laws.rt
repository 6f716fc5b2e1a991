//! Laws of the files of a journal, in words of their own.
ghost use Rattle.std.specs.Prelude.{◌≡◌, ◌<◌, ◌≤◌, ℕ, List, length};
ghost use Rattle.std.specs.Ordering.{nat_cmp};
ghost use Rattle.std.specs.Cmp.Lexicographic.{slice_cmp};
ghost use Rattle.std.specs.declared.cmp.Ordering.TheVariants.{Less};
ghost use Rattle.gear_worlds.specs.Files.{file_path, first_word};
ghost use Rattle.gear_worlds.specs.declared.journal_files.TheConstants.{FIRST_DIGITS};
ghost use Rattle.lb_model.specs.declared.validity.TheConstants.{MOST_NUMBERS};

/// The first number of a segment has 15 digits in the name of its file.
pub fn a_first_number_has_15_digits()
    ensures { (first : ℕ) → first ≤ MOST_NUMBERS → length (first_word first) ≡ FIRST_DIGITS }
{}

/// The files of a balancer in the order of their names are in the order of their segments' first numbers.
pub fn files_are_in_the_order_of_their_first_numbers()
    ensures { (dir name : List ℕ) (first later : ℕ) → first < later → later ≤ MOST_NUMBERS
        → slice_cmp nat_cmp (file_path dir name first) (file_path dir name later) ≡ Less }
{}
