//! Laws of a Forward Request for a member and of its first piece, whatever the calls do.
ghost use Rattle.std.specs.Prelude.{◌≡◌, ℕ, ◌≤◌, List, [], ◌∷◌, ◌++◌};
ghost use Rattle.std.specs.List.{All};
ghost use Rattle.ajp_request.specs.declared.forward.Forward.{Forward};
ghost use Rattle.ajp_request.specs.Spelling.{SpellsForward};
ghost use Rattle.ajp_request.specs.Writing.{as_read, payload_of, tail_bytes};
ghost use Rattle.forwarding.specs.FirstPiece.{first_len, piece_for};
ghost use Rattle.forwarding.specs.Forwards.{Delivery, IsSpellable, attribute_parts, forward_in};
ghost use Rattle.http_front.specs.declared.head.BodyPlan.TheVariants as plan;
ghost use Rattle.site_config.specs.declared.endpoint.Endpoint.{Endpoint};

use ajp_request::written_requests_are_read_again;

/// Law: the attributes are written in this order, each only where there is something to tell: 05 the query, 06 the
/// member's route, 0C the secret, 0D a method that has no code.
pub fn attributes_stand_in_order()
    ensures { (d : Delivery) → tail_bytes (forward_in d) ≡ attribute_parts d.head d.direct d.member d.endpoint ++ 255 ∷ [] }
{}

/// Law: where it can be spelled, the payload is read as this request, with coded names in their table's
/// spelling, and as no other one.
pub fn a_forward_is_read_again()
    ensures spelled { (d : Delivery) → IsSpellable d → SpellsForward (as_read (forward_in d)) (payload_of (forward_in d)) }
    ensures alone { (d : Delivery) (other : Forward) → IsSpellable d → SpellsForward other (payload_of (forward_in d))
        → other ≡ as_read (forward_in d) }
{
    written_requests_are_read_again();
}

/// Law: the first piece is no longer than the body, and fits a body packet for each member.
pub fn a_first_piece_fits_each_member()
    ensures within { (n : ℕ) (ends : List Endpoint) → first_len (plan.Exact n) ends ≤ n }
    ensures fits { (n : ℕ) (ends : List Endpoint) → All (λ endpoint. first_len (plan.Exact n) ends ≤ piece_for endpoint) ends }
    ensures reached { (n : ℕ) (ends : List Endpoint) (len : ℕ) → len ≤ n → All (λ endpoint. len ≤ piece_for endpoint) ends
        → len ≤ first_len (plan.Exact n) ends }
{}
