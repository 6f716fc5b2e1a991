//! Laws of the spelling of a Forward Request, whatever the calls do.
ghost use Rattle.std.specs.Prelude.{◌≡◌, List, ℕ};
ghost use Rattle.ajp_request.specs.declared.forward.Forward.{Forward};
ghost use Rattle.ajp_request.specs.Spelling.{SpellsForward};
ghost use Rattle.ajp_request.specs.Writing.{payload_of, as_read, IsForward, FieldsFit};

/// A payload spells one request at most.
pub fn one_request_a_payload()
    ensures { (one other : Forward) (payload : List ℕ) → SpellsForward one payload → SpellsForward other payload → one ≡ other }
{}

/// What is written for a request spells it, with coded names in their table's spelling, and spells no other one. So
/// decoding what was encoded gives the request again.
pub fn written_requests_are_read_again()
    ensures spelled { (forward : Forward) → IsForward forward → FieldsFit forward → SpellsForward (as_read forward) (payload_of forward) }
    ensures alone { (forward other : Forward) → IsForward forward → FieldsFit forward
        → SpellsForward other (payload_of forward) → other ≡ as_read forward }
{}
