//! Laws of the definitions of queries and pages, as functions without a body.
ghost use Rattle.std.specs.Prelude.{◌≡◌, ℕ, ◌+◌, ◌<◌, true, false, List, [], ◌∷◌, ◌++◌, length, None, Some, All, codes, count_by, sum_by};
ghost use Rattle.std.specs.List.{join_with_byte, list_all};
ghost use Rattle.percent_encoding.specs.declared.ascii_set.AsciiSet.{AsciiSet};
ghost use Rattle.status_worker.specs.declared.command.StatusCommand.{StatusCommand};
ghost use Rattle.status_worker.specs.declared.field.Field.{Field};
ghost use Rattle.status_worker.specs.declared.name.Name.{Name};
ghost use Rattle.status_worker.specs.declared.page.PagePart.{PagePart};
ghost use Rattle.status_worker.specs.declared.texts.Texts.{Texts};
ghost use Rattle.status_worker.specs.PageAsking.{IsAsked, fields_for};
ghost use Rattle.status_worker.specs.PageCommands.{AreGiven, Asks};
ghost use Rattle.status_worker.specs.Fields.{field_of, fields_of, parts_of};
ghost use Rattle.status_worker.specs.Lines.{IsShownPart, line_count, lines_of_part};
ghost use Rattle.status_worker.specs.Marks.{html_text, is_no_line_end, is_no_mark, label_read, label_text};
ghost use Rattle.status_worker.specs.Meaning.{command_in, meaning_of};
ghost use Rattle.status_worker.specs.Names.{has_name, texts_of};
ghost use Rattle.status_worker.specs.Page.{page_of};
ghost use Rattle.status_worker.specs.Written.{written, EscapesMarks, HasBytes};

use percent_encoding::NON_ALPHANUMERIC;

/// A query that is written for fields has these fields, whichever bytes beside `%`, `&` and `=` are escaped; and a query
/// is its parts with `&` between them.
pub fn written_fields_are_read()
    ensures read { (set : AsciiSet) (fields : List Field) → EscapesMarks set → All HasBytes fields
        → fields_of (written set fields) ≡ Some fields }
    ensures met { EscapesMarks NON_ALPHANUMERIC }
    ensures joined { (query : List ℕ) → join_with_byte 38 (parts_of query) ≡ query }
{}

/// Each command that a query can ask for is asked for by its fields: a query that is written for them means it.
pub fn asked_commands_are_read()
    ensures fields { (c : StatusCommand) → IsAsked c → command_in (fields_for c) ≡ Some c }
    ensures query { (set : AsciiSet) (c : StatusCommand) → EscapesMarks set → All HasBytes (fields_for c) → IsAsked c
        → meaning_of (Some (written set (fields_for c))) ≡ Some c }
{}

/// The fields of a query mean a command exactly where each known name has at most one value, and the table of commands
/// has the command for these values; they mean no other command.
pub fn commands_are_those_of_the_table()
    ensures read { (fields : List Field) (t : Texts) (c : StatusCommand)
        → AreGiven fields t → Asks t c → command_in fields ≡ Some c }
    ensures only { (fields : List Field) (c : StatusCommand) → command_in fields ≡ Some c
        → AreGiven fields (texts_of fields) × Asks (texts_of fields) c }
    ensures one { (fields : List Field) (t u : Texts) (c d : StatusCommand)
        → AreGiven fields t → Asks t c → AreGiven fields u → Asks u d → c ≡ d }
{}

/// A part that can't be read, or a known name that stands twice, makes a query bad, whatever else it has.
pub fn one_bad_part_is_enough()
    ensures unread { (query part : List ℕ) (front back : List (List ℕ)) → parts_of query ≡ front ++ part ∷ back
        → 0 < length part → field_of part ≡ None → meaning_of (Some query) ≡ None }
    ensures repeated { (fields : List Field) (n : Name) → 1 < count_by (has_name n) fields → command_in fields ≡ None }
{}

/// A field of another name means nothing, and neither does the order of the fields.
pub fn other_names_and_order_mean_nothing()
    ensures others { (front back : List Field) (f : Field) → ((n : Name) → has_name n f ≡ false)
        → command_in (front ++ f ∷ back) ≡ command_in (front ++ back) }
    ensures order { (front back : List Field) (f g : Field)
        → command_in (front ++ f ∷ g ∷ back) ≡ command_in (front ++ g ∷ f ∷ back) }
{}

/// A page has its first line, and a line for each balancer and each member. The page of no balancer is its first line.
pub fn pages_have_a_line_for_each()
    ensures lines { (parts : List PagePart) → All IsShownPart parts
        → line_count (page_of parts) ≡ 1 + sum_by lines_of_part parts }
    ensures none { page_of [] ≡ codes "jk status\n" }
{}

/// No text reaches the table with a `<`, a `>` or a quote of its own, and no label ends early: its value has no line end,
/// and is read back as the text.
pub fn texts_have_no_marks()
    ensures table { (text : List ℕ) → list_all is_no_mark (html_text text) ≡ true }
    ensures lines { (text : List ℕ) → list_all is_no_line_end (label_text text) ≡ true }
    ensures label { (text : List ℕ) → label_read (label_text text) ≡ text }
{}
