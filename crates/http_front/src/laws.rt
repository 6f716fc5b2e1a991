//! Laws of the definitions: a client's bytes say one thing, and a head is lines with an empty one after them.
ghost use Rattle.std.specs.Prelude.{◌≡◌, ◌<◌, ◌+◌, ℕ, List, ◌++◌, length, Some};
ghost use Rattle.http_front.specs.Cut.{head_len, header_lines};
ghost use Rattle.http_front.specs.Lines.{AreFullLines, IsEmptyLine, ended};
ghost use Rattle.http_front.specs.Request.{IsHeadOf, Refuses, AreEmptyLines, EndsInHead};
ghost use Rattle.http_front.specs.declared.answers.Form.{Form};
ghost use Rattle.http_front.specs.declared.head.Head.{Head};

/// At the front of a client's bytes stands at most one head, the bytes are refused for one form at
/// most, and no two of the four answers hold at once.
pub fn one_answer()
    ensures head { (bytes used rest other left : List ℕ) (head twin : Head) → bytes ≡ used ++ rest → IsHeadOf used head
        → bytes ≡ other ++ left → IsHeadOf other twin → (used ≡ other) × (head ≡ twin) }
    ensures form { (bytes : List ℕ) (form other : Form) → Refuses bytes form → Refuses bytes other → form ≡ other }
    ensures refused { (bytes used rest : List ℕ) (head : Head) (form : Form) → bytes ≡ used ++ rest → IsHeadOf used head → Refuses bytes form → ⊥ }

    ensures empty_head { (bytes used rest : List ℕ) (head : Head) → bytes ≡ used ++ rest → IsHeadOf used head → AreEmptyLines bytes → ⊥ }
    ensures empty_refused { (bytes : List ℕ) (form : Form) → Refuses bytes form → AreEmptyLines bytes → ⊥ }
    ensures short_head { (bytes used rest : List ℕ) (head : Head) → bytes ≡ used ++ rest → IsHeadOf used head → EndsInHead bytes → ⊥ }
    ensures short_refused { (bytes : List ℕ) (form : Form) → Refuses bytes form → EndsInHead bytes → ⊥ }
    ensures short_empty { (bytes : List ℕ) → AreEmptyLines bytes → EndsInHead bytes → ⊥ }
{}

/// Lines that aren't empty, and an empty line after them, are the bytes of a head, whatever
/// follows; its header lines are all of them but the first.
pub fn a_head_is_lines()
    ensures cut { (lines : List (List ℕ)) (last rest : List ℕ) → 0 < length lines → AreFullLines lines → IsEmptyLine last
        → head_len (ended lines ++ (last ++ rest)) ≡ Some (length (ended lines ++ last)) }
    ensures counted { (lines : List (List ℕ)) (last : List ℕ) → 0 < length lines → AreFullLines lines → IsEmptyLine last
        → header_lines (ended lines ++ last) + 1 ≡ length lines }
{}
