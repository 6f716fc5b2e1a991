//! An entry is added: the two lists that grow with each entry of a Book.

ghost use Rattle.std.specs.Prelude.{◌≡◌, ◌+◌, ◌<◌, ◌≤◌, [], ◌∷◌, ◌++◌, None, length, vec_len, vec_capacity, OnOk};

use jk_io::NoMemory;
use lb_model::Entry;

// From so many elements on, a list takes the room for a whole journal at once ..
const LONG_LIMIT: usize = 1_024;

// .. and so much, in bytes, that the C library maps it apart from what it keeps for small pieces: the pages of a list that is cut
// go back to the system, whatever thread cuts it.
const MAPPED: usize = 0x210_0000;

const WHOLE_ENTRIES: usize = MAPPED / size_of::<Entry>();

const WHOLE_PLACES: usize = MAPPED / size_of::<Option<u64>>();

// Takes the room for `more` elements; as many as `whole` where the list is long, if the system has as much.
fn grow<T>(list: &mut Vec<T>, more: usize, whole: usize) -> Result<(), NoMemory>
    ensures items { list.new.items ≡ list.old.items }
    ensures room { OnOk result (length list.old.items + more ≤ vec_capacity list.new) }
    ensures no_less { vec_capacity list.old ≤ vec_capacity list.new }
{
    if list.capacity() - list.len() >= more {
        return Ok(());
    }
    if list.len() >= LONG_LIMIT && more < whole && list.reserve(whole).is_ok() {
        return Ok(());
    }
    list.reserve(more)?;
    Ok(())
}

/// Takes the room for `more` entries, and for the number of the entry that returns each one's ticket.
pub(super) fn take_room(
    entries: &mut Vec<Entry>,
    returned: &mut Vec<Option<u64>>,
    more: usize,
) -> Result<(), NoMemory>
    ensures items { entries.new.items ≡ entries.old.items }
    ensures places { returned.new.items ≡ returned.old.items }
    ensures room { OnOk result (length entries.old.items + more ≤ vec_capacity entries.new) }
    ensures places_room { OnOk result (length returned.old.items + more ≤ vec_capacity returned.new) }
    ensures no_less { vec_capacity entries.old ≤ vec_capacity entries.new }
    ensures places_no_less { vec_capacity returned.old ≤ vec_capacity returned.new }
{
    grow(entries, more, WHOLE_ENTRIES)?;
    grow(returned, more, WHOLE_PLACES)
}

/// Adds an entry, whose ticket did not come back yet.
pub(super) fn add(entries: &mut Vec<Entry>, returned: &mut Vec<Option<u64>>, entry: Entry)
    requires room { length entries.old.items < vec_capacity entries.old }
    requires places_room { length returned.old.items < vec_capacity returned.old }
    ensures items { entries.new.items ≡ entries.old.items ++ entry ∷ [] }
    ensures places { returned.new.items ≡ returned.old.items ++ None ∷ [] }
    ensures no_less { vec_capacity entries.old ≤ vec_capacity entries.new }
    ensures places_no_less { vec_capacity returned.old ≤ vec_capacity returned.new }
{
    entries.push(entry).unwrap();
    returned.push(None).unwrap();
}
