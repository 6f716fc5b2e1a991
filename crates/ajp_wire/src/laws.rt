//! A law of the spellings: no packet begins another.

ghost use Rattle.std.specs.Prelude.{◌≡◌, List, ℕ, ◌++◌, Bool};
ghost use Rattle.ajp_wire.specs.Packet.{packet};

/// No packet is a proper prefix of another. So the packets of a list of bytes are read in one way, from its front.
pub fn no_packet_begins_another()
    ensures { (from_container : Bool) (one other rest other_rest : List ℕ)
        → packet from_container one ++ rest ≡ packet from_container other ++ other_rest
        → (one ≡ other) × (rest ≡ other_rest) }
{}
