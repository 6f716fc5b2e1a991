//! Laws of a journal's text, in words of their own.
ghost use Rattle.std.specs.Prelude.{◌≡◌, ◌∷◌, ℕ, List};
ghost use Rattle.journal_text.specs.Reading.{TextOutcome, ReadsText, readable};
ghost use Rattle.journal_text.specs.Written.{CanFollow, texts_of};
ghost use Rattle.journal_text.specs.declared.counted.Counted.{Counted};

/// A text is read in one way: as these segments, or as a text that can't be read at this line.
pub fn a_text_is_read_in_one_way()
    ensures { (text : List ℕ) (one other : TextOutcome) → ReadsText text one → ReadsText text other → one ≡ other }
{}

/// The texts of segments are read as those segments again.
pub fn a_written_text_is_read()
    ensures { (first : Counted) (later : List Counted) → CanFollow 1 (first ∷ later) → ReadsText (texts_of (first ∷ later)) (readable (first ∷ later)) }
{}
