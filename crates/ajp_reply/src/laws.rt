//! Laws of the spellings of messages, whatever the calls do.

ghost use Rattle.std.specs.Prelude.{◌≡◌, ℕ, List, ◌++◌, Bool, true};
ghost use Rattle.ajp_wire.specs.Packet.{IsNoPacket, IsTooLong, IsPacket};
ghost use Rattle.ajp_reply.specs.declared.message.Message.{Message};
ghost use Rattle.ajp_reply.specs.declared.message.ReplyParts.{ReplyParts};
ghost use Rattle.ajp_reply.specs.Spelling.{Spells, payload_of, as_read, IsMessage, FieldsFit};
ghost use Rattle.ajp_reply.specs.Stream.{Spelled, IsStream, AreNextMessages, IsFront, IsForm, NoReply, BeginsNoMessage};

/// A payload spells one message at most.
pub fn one_message_a_payload()
    ensures { (one other : Message) (payload : List ℕ) → Spells one payload → Spells other payload → one ≡ other }
{}

/// What is written for a message spells it, with coded names in their table's spelling, and spells no other one. So
/// decoding what was encoded gives the message again.
pub fn written_messages_are_read_again()
    ensures spelled { (message : Message) → IsMessage message → FieldsFit message → Spells (as_read message) (payload_of message) }
    ensures alone { (message other : Message) → IsMessage message → FieldsFit message
        → Spells other (payload_of message) → other ≡ as_read message }
{}

/// Bytes are read in one way as messages, one after another, and then less than a whole packet.
pub fn one_reading()
    ensures { (most : ℕ) (one other : List Message) (bytes rest other_rest : List ℕ)
        → IsStream most one bytes rest → IsStream most other bytes other_rest
        → (one ≡ other) × (rest ≡ other_rest) }
{}

/// After bytes that spell messages, reading goes on with the bytes that follow, and in no other way.
pub fn readings_go_on()
    ensures behind { (most : ℕ) (past later : List Message) (bytes more : List ℕ)
        → Spelled most past bytes → Spelled most later more → Spelled most (later ++ past) (bytes ++ more) }
    ensures only { (most : ℕ) (past all : List Message) (bytes more : List ℕ) → Spelled most past bytes
        → Spelled most all (bytes ++ more) → AreNextMessages most past all more }
{}

/// Which bytes are no reply, however they go on. `ok` says which heads may stand in one.
pub fn bytes_of_no_reply()
    // Messages that are neither a reply nor the front of one, as where the last one may not stand there.
    ensures other { (ok : ReplyParts → Bool) (most : ℕ) (past : List Message) (bytes : List ℕ) → Spelled most past bytes
        → (IsFront ok past → ⊥) → (IsForm ok past → ⊥) → NoReply ok most bytes }

    // After a front, bytes that begin no message.
    ensures none { (ok : ReplyParts → Bool) (most : ℕ) (past : List Message) (came rest : List ℕ)
        → Spelled most past came → IsFront ok past → BeginsNoMessage most rest → NoReply ok most (came ++ rest) }

    // No message begins where no packet begins, where the packet is above the limit, or where it spells none.
    ensures no_packet { (most : ℕ) (bytes : List ℕ) → IsNoPacket true bytes → BeginsNoMessage most bytes }
    ensures too_long { (most : ℕ) (bytes : List ℕ) → IsTooLong true most bytes → BeginsNoMessage most bytes }
    ensures unread { (most : ℕ) (payload bytes : List ℕ) → IsPacket true most payload bytes
        → ((message : Message) → Spells message payload → ⊥) → BeginsNoMessage most bytes }
{}
