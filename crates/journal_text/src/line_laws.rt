//! Laws of the lines, in words of their own.
ghost use Rattle.std.specs.Prelude.{◌≡◌, ℕ, List, Some};
ghost use Rattle.journal_text.specs.Lines.{line_text};
ghost use Rattle.journal_text.specs.Ranges.{FitsLine};
ghost use Rattle.journal_text.specs.Readings.{line_of};
ghost use Rattle.journal_text.specs.declared.line.Line.{Line};

/// A line that is written is read as the same line, and no other text is read as it. So a text is read in one way.
pub fn each_line_is_read()
    ensures read { (rules : ℕ) (line : Line) → FitsLine rules line → line_of rules (line_text rules line) ≡ Some line }
    ensures spelled { (rules : ℕ) (text : List ℕ) (line : Line) → line_of rules text ≡ Some line → text ≡ line_text rules line }
{}
