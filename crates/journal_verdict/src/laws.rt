//! Laws of a journal's text, in words of their own.
ghost use Rattle.std.specs.Prelude.{◌≡◌, ℕ, List};
ghost use Rattle.journal_text.specs.Reading.{ReadsText, readable};
ghost use Rattle.journal_text.specs.Written.{texts_of};
ghost use Rattle.journal_text.specs.declared.counted.Counted.{Counted};

/// A text is read as segments only where it is their text.
pub fn a_text_is_that_of_its_segments()
    ensures { (text : List ℕ) (segments : List Counted) → ReadsText text (readable segments) → text ≡ texts_of segments }
{}
