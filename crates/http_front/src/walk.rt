//! The walk over a client's bytes: framing is stepped over, data is copied or dropped.
ghost use Rattle.std.specs.Prelude.{◌≡◌, ◌<◌, ◌≤◌, ◌+◌, ◌↔◌, [], length, take, min, false, IfOk, IfErr, OnOk, OnErr, IsTrue, Some};
ghost use Rattle.jk_io.specs.Told.{prepended, IsEmpty};
ghost use Rattle.http_front.specs.Unread.{unread};
ghost use Rattle.http_front.specs.Body.{Uses, is_over, place_behind, data_from};
ghost use Rattle.http_front.specs.Places.{data_left};
ghost use Rattle.http_front.specs.Falls.{framing_left, exact_left};
ghost use Rattle.http_front.specs.Faults.{IsCalmBody};
ghost use Rattle.http_front.specs.Reads.{ReadsClient, ReadsOnce, StepsOn};
ghost use Rattle.http_front.specs.Walks.{Walks, Fails, Passes, Breaks, IsDropped, IsPut, is_reached};
ghost use Rattle.http_front.specs.Wants.{Next, Rest, settles};

use crate::Inbox;
use crate::fault::{BodyFault, fault_of};
use crate::place::{Place, data_left, data_step, is_bad, is_limited, is_whole, step};
use jk_io::{IoError, Link};

/// How far a walk came that fills a piece.
#[derive(Clone, Copy)]
pub struct FilledPiece {
    /// Where it stands.
    pub place: Place,
    /// How many bytes of data it put into the piece.
    pub count: usize,
}

/// Where a walk over a whole body ended.
#[derive(Clone, Copy)]
pub struct Passed {
    /// Where it stands.
    pub place: Place,
    /// How many bytes of data the body had so far, also before the walk.
    pub taken: u64,
}

/// Puts the next bytes of data into the piece, until it is full or the body is whole.
pub fn fill_piece<C: Link>(
    start: Place,
    most: u64,
    taken: u64,
    inbox: &mut Inbox,
    client: &mut C,
    piece: &mut [u8],
) -> Result<FilledPiece, BodyFault>
    ensures count { IfOk result (λ f. f.count ≤ length piece.new) }
    ensures ok { IfOk result (λ f. Walks most taken (length piece.new) (unread inbox.old (C.incoming client.old))
        (unread inbox.new (C.incoming client.new)) start f.place (take f.count piece.new)) }
    ensures err { IfErr result (Fails most taken (length piece.new) (unread inbox.old (C.incoming client.old))
        (unread inbox.new (C.incoming client.new)) start) }
    ensures reads { ReadsClient C.Meanings BodyFault.Fault (IsCalmBody result) client.old client.new result }
    ensures unasked { IsTrue (settles (Next (length piece.old)) start most taken inbox.old)
        → client.new ≡ client.old }
{
    let mut place = start;
    let mut count = 0;
    'walk: loop {
        if is_reached(place, most, taken.saturating_add(count as u64)) {
            return Err(BodyFault::TooLong);
        }
        if count == piece.len() {
            return Ok(FilledPiece { place, count });
        }
        if is_whole(place) {
            return Ok(FilledPiece { place, count });
        }
        if is_bad(place) {
            return Err(BodyFault::BadChunk);
        }
        let left = data_left(place);
        if left == 0 {
            place = pass_framing(place, inbox, client)?;
        } else {
            let came = take_data(left, count, inbox, client, piece)?;
            place = data_step(place, came as u64);
            count += came;
        }
    }
}

/// Drops the data until the body is whole.
pub fn pass_body<C: Link>(
    start: Place,
    most: u64,
    taken: u64,
    inbox: &mut Inbox,
    client: &mut C,
) -> Result<Passed, BodyFault>
    ensures ok { IfOk result (λ p. Passes most taken (unread inbox.old (C.incoming client.old))
        (unread inbox.new (C.incoming client.new)) start p.place p.taken) }
    ensures err { IfErr result (Breaks most taken (unread inbox.old (C.incoming client.old))
        (unread inbox.new (C.incoming client.new)) start) }
    ensures reads { ReadsClient C.Meanings BodyFault.Fault (IsCalmBody result) client.old client.new result }
    ensures unasked { IsTrue (settles Rest start most taken inbox.old) → client.new ≡ client.old }
{
    let mut place = start;
    let mut sum = taken;
    'walk: loop {
        if is_reached(place, most, sum) {
            return Err(BodyFault::TooLong);
        }
        if is_whole(place) {
            return Ok(Passed { place, taken: sum });
        }
        if is_bad(place) {
            return Err(BodyFault::BadChunk);
        }
        let left = data_left(place);
        if left == 0 {
            place = pass_framing(place, inbox, client)?;
        } else {
            let count = drop_data(left, inbox, client)?;
            place = data_step(place, count);
            sum = sum.saturating_add(count);
        }
    }
}

/// Whether the data of a chunked body reached its limit.
fn is_reached(place: Place, most: u64, taken: u64) -> bool
    ensures { result ≡ is_reached place most taken }
{
    is_limited(place) && most <= taken
}

/// The lesser of what is left and what is wanted.
fn count_of(left: u64, wanted: usize) -> usize
    ensures { result ≡ min left wanted }
{
    if left < wanted as u64 {
        left as usize
    } else {
        wanted
    }
}

/// Whether the byte at this place is one of the framing.
fn is_framing(place: Place) -> bool
    ensures { IsTrue result ↔ ((data_left place ≡ 0) × (is_over place ≡ false)) }
{
    data_left(place) == 0 && !is_whole(place) && !is_bad(place)
}

/// Steps over the framing at the front of the bytes, and answers how many of them it is.
fn step_framing(start: Place, bytes: &[u8]) -> (Place, usize)
    requires framing { data_left start ≡ 0 }
    requires open_end { is_over start ≡ false }
    requires some { 0 < length bytes.now }
    ensures within { result.1 ≤ length bytes.now }
    ensures own { place_behind (take result.1 bytes.now) start ≡ Some result.0 }
    ensures brings { (data_from (take result.1 bytes.now) start).bytes ≡ [] }
    ensures falls { framing_left result.0 < framing_left start }
    ensures chunked { exact_left result.0 ≡ 0 }
{
    let mut place = step(start, bytes[0]);
    let mut used = 1;
    while used < bytes.len() && is_framing(place) {
        place = step(place, bytes[used]);
        used += 1;
    }
    (place, used)
}

/// Sees that a byte is in the inbox.
fn await_byte<C: Link>(inbox: &mut Inbox, client: &mut C) -> Result<(), BodyFault>
    ensures ok { OnOk result (0 < length inbox.new) }
    ensures inside { 0 < length inbox.old → inbox.new ≡ inbox.old }
    ensures unread { unread inbox.new (C.incoming client.new) ≡ unread inbox.old (C.incoming client.old) }
    ensures steps { StepsOn C.Meanings inbox.old inbox.new client.old client.new result }
{
    if !inbox.is_empty() {
        return Ok(());
    }
    match inbox.read_more(client) {
        Ok(0) => Err(BodyFault::Truncated),
        Ok(_) => Ok(()),
        Err(error) => Err(fault_of(error)),
    }
}

/// Steps over framing, from the inbox or what the client has.
fn pass_framing<C: Link>(
    place: Place,
    inbox: &mut Inbox,
    client: &mut C,
) -> Result<Place, BodyFault>
    requires framing { data_left place ≡ 0 }
    requires open_end { is_over place ≡ false }
    ensures ok { IfOk result (λ next. Uses (unread inbox.old (C.incoming client.old))
        (unread inbox.new (C.incoming client.new)) place next []) }
    ensures inside { 0 < length inbox.old → IfOk result (λ next. Uses (Some inbox.old) (Some inbox.new) place next []) }
    ensures falls { IfOk result (λ next. framing_left next < framing_left place) }
    ensures chunked { IfOk result (λ next. exact_left next ≡ 0) }
    ensures err { OnErr result (unread inbox.new (C.incoming client.new) ≡ unread inbox.old (C.incoming client.old)) }
    ensures steps { StepsOn C.Meanings inbox.old inbox.new client.old client.new result }
{
    await_byte(inbox, client)?;
    let (next, used) = step_framing(place, inbox.as_slice());
    inbox.skip(used);
    Ok(next)
}

/// Uses up to `left` bytes of data, from the inbox or what the client has, and answers how many.
fn drop_data<C: Link>(left: u64, inbox: &mut Inbox, client: &mut C) -> Result<u64, BodyFault>
    requires { 0 < left }
    ensures count { IfOk result (λ n. (0 < n) × (n ≤ left)) }
    ensures gone { IfOk result (λ n. IsDropped n inbox.old inbox.new (C.incoming client.old) (C.incoming client.new)) }
    ensures err { OnErr result (unread inbox.new (C.incoming client.new) ≡ unread inbox.old (C.incoming client.old)) }
    ensures steps { StepsOn C.Meanings inbox.old inbox.new client.old client.new result }
{
    await_byte(inbox, client)?;
    let count = count_of(left, inbox.len());
    inbox.skip(count);
    Ok(count as u64)
}

/// Puts up to `left` bytes of data after the first `count` of the piece, and answers how many came.
fn take_data<C: Link>(
    left: u64,
    count: usize,
    inbox: &mut Inbox,
    client: &mut C,
    piece: &mut [u8],
) -> Result<usize, BodyFault>
    requires some { 0 < left }
    requires room { count < length piece.old }
    ensures within { IfOk result (λ n. (0 < n) × (n ≤ left) × (count + n ≤ length piece.new)) }
    ensures put { IfOk result (λ n. IsPut n count piece.old piece.new inbox.old inbox.new (C.incoming client.old) (C.incoming client.new)) }
    ensures err { OnErr result (unread inbox.new (C.incoming client.new) ≡ unread inbox.old (C.incoming client.old)) }
    ensures steps { StepsOn C.Meanings inbox.old inbox.new client.old client.new result }
{
    let want = count_of(left, piece.len() - count);
    match next_data(inbox, client, &mut piece[count..count + want]) {
        Ok(0) => Err(BodyFault::Truncated),
        Ok(came) => Ok(came),
        Err(error) => Err(fault_of(error)),
    }
}

/// Takes bytes for the buffer: those in the inbox, or where it is empty what the client has.
fn next_data<C: Link>(inbox: &mut Inbox, client: &mut C, buf: &mut [u8]) -> Result<usize, IoError>
    requires { 0 < length buf.old }
    ensures count { IfOk result (λ n. n ≤ length buf.new) }
    ensures came { IfOk result (λ n. unread inbox.old (C.incoming client.old)
        ≡ prepended (take n buf.new) (unread inbox.new (C.incoming client.new))) }
    ensures inside { 0 < length inbox.old → IfOk result (λ n. Some inbox.old ≡ prepended (take n buf.new) (Some inbox.new)) }
    ensures unasked { 0 < length inbox.old → client.new ≡ client.old }
    ensures end { IfOk result (λ n. n ≡ 0 → IsEmpty (unread inbox.new (C.incoming client.new))) }
    ensures err { OnErr result (unread inbox.new (C.incoming client.new) ≡ unread inbox.old (C.incoming client.old)) }
    ensures reads { ReadsOnce C.Meanings client.old client.new result }
{
    if inbox.is_empty() {
        return client.read(buf);
    }
    let count = copy_front(inbox.as_slice(), buf);
    inbox.skip(count);
    Ok(count)
}

/// Copies what fits to the front of the buffer, and answers how many bytes it is.
fn copy_front(bytes: &[u8], buf: &mut [u8]) -> usize
    ensures count { result ≡ min (length bytes.now) (length buf.old) }
    ensures copied { take result buf.new ≡ take result bytes.now }
{
    let count = bytes.len().min(buf.len());
    buf[..count].copy_from_slice(&bytes[..count]);
    count
}
