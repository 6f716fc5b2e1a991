//! Laws of the applications and of a container's turns: consequences of the definitions alone, whatever the calls do.
ghost use Rattle.std.specs.Prelude.{◌≡◌, ℕ, ◌-◌, ◌^◌, ◌<◌, List, [], Bool, false, length, reverse, not, IsTrue};
ghost use Rattle.std.specs.List.{AllByRecursion};
ghost use Rattle.ajp_reply.specs.Stream.{Spelled};
ghost use Rattle.ajp_request.specs.declared.forward.Forward.{Forward};
ghost use Rattle.ajp_container.specs.declared.app_config.AppConfig.{AppConfig};
ghost use Rattle.ajp_container.specs.declared.page.AppPage.{AppPage};
ghost use Rattle.ajp_container.specs.Applications.{drops};
ghost use Rattle.ajp_container.specs.Request.{application_of, content_length, asks_body};
ghost use Rattle.ajp_container.specs.Answer.{cut, messages_of, answer_of, bytes_of, IsSendable};
ghost use Rattle.ajp_container.specs.Reply.{IsCutBody, AreReply, IsSomeReply, NeverEnds, IsShortTurn, HasAll};
ghost use Rattle.ajp_container.specs.Turns.{ContainerTurn, AskedFor, WasAsked, owed};

/// The chunks of a body joined are the body, none is empty, and each but the last is as long as a packet allows.
pub fn a_body_is_its_chunks()
    ensures { (size : ℕ) (body : List ℕ) → 0 < size → IsCutBody size body (cut size body) }
{}

/// A page is sent as one head, its body in chunks, and End Response. Its Content-Length is the length of the chunks
/// together.
pub fn a_page_is_a_reply()
    ensures { (packet : ℕ) (page : AppPage) → 8 < packet
        → AreReply (packet - 8) page.status page.counted page.body (messages_of packet page) }
{}

/// Every request is answered by a whole reply, but for one of `/drop`, whose answer has no End Response.
pub fn an_answer_is_whole_or_dropped()
    ensures whole { (app : AppConfig) (forward : Forward) (body : List ℕ) → IsTrue (not (drops (application_of app forward)))
        → IsSomeReply (app.packet - 8) (answer_of app forward body) }
    ensures dropped { (app : AppConfig) (forward : Forward) (body : List ℕ) → IsTrue (drops (application_of app forward))
        → NeverEnds (answer_of app forward body) }
{}

/// Each message of an answer fits the container's packet.
pub fn answers_fit_their_packets()
    ensures { (app : AppConfig) (forward : Forward) (body : List ℕ) → length body < 2 ^ 64
        → AllByRecursion (IsSendable app.packet) (answer_of app forward body) }
{}

/// What is sent for a turn spells its messages, the newest first in the list, and nothing else.
pub fn what_is_sent_is_spelled()
    ensures { (app : AppConfig) (turn : ContainerTurn) → IsShortTurn turn → Spelled app.packet (reverse (owed app turn)) (bytes_of (owed app turn)) }
{}

/// A body is asked for only where it is the answer, and then until the last ask brings no data, or as many bytes came as
/// the request names.
pub fn a_body_is_asked_for_to_its_end()
    ensures all { (app : AppConfig) (forward : Forward) (first : List ℕ) (past : List (List ℕ)) → WasAsked app forward first past
        → HasAll (content_length forward) first past }
    ensures none { (app : AppConfig) (forward : Forward) (first : List ℕ) (past : List (List ℕ)) → asks_body app forward ≡ false
        → AskedFor app forward first past → past ≡ [] }
{}
