// Placing an entry: where it goes in the list, and whether there is room for it. Scope, "Placing an entry".
ghost use Rattle.std.specs.Prelude.{◌≡◌, true, ◌≤◌, length};
ghost use Rattle.table.specs.Entries.{Entry, compare, order_number};
ghost use Rattle.table.specs.Placing.{place};
ghost use Rattle.table.specs.Acts.{has_room, overflows};
ghost use Rattle.table.specs.Memory.{next_at, entry_at, table_of, holds};
ghost use Rattle.table.specs.Changing.{SearchEnds};

use crate::{ENTRY_HEAD, Kind, MAX_ENTRIES, MAX_PATH_BYTES, Place, TABLE_HEAD, comparing, reading};
use std::cmp::Ordering;

// Where a search ends: a place of the list, and where the entry there begins.
#[derive(Clone, Copy)]
struct Probe {
    base: usize,
    at: usize,
}

// The entry at an offset with a new one.
fn compare_at(mem: &[u8], at: usize, kind: Kind, path: &[u8]) -> Ordering
    requires { next_at mem.now at ≤ length mem.now }
    ensures { order_number result ≡ compare (entry_at mem.now at) (record { kind = kind; path = path.now }) }
{
    comparing::compare(
        reading::kind_from(mem[at]),
        reading::entry_path(mem, at),
        kind,
        path,
    )
}

// The search for a place, by halves of the list. The entry half-way is found from the one at the base.
#[tactic(auto, using(crate::proofs::Puts::long_of))]
fn search(mem: &[u8], kind: Kind, path: &[u8]) -> Probe
    requires { holds mem.now ≡ true }
    ensures { SearchEnds mem.now (record { kind = kind; path = path.now }) result.base result.at }
{
    let mut base = 0;
    let mut at = TABLE_HEAD;
    let mut size = reading::word_at(mem, 0);
    // no `binary_search_by`: entries differ in length, so that there is no slice of them
    while size > 1 {
        let half = size / 2;
        let middle = reading::hop(mem, at, half);
        size -= half;
        if compare_at(mem, middle, kind, path).is_le() {
            base += half;
            at = middle;
        }
    }
    Probe { base, at }
}

// Where a new entry goes.
#[tactic(auto, using(crate::proofs::Puts::long_of))]
pub(crate) fn place(mem: &[u8], kind: Kind, path: &[u8]) -> Place
    requires { holds mem.now ≡ true }
    ensures { result ≡ place (table_of mem.now).entries (record { kind = kind; path = path.now }) }
{
    if reading::word_at(mem, 0) == 0 {
        return Place::At(0);
    }
    let found = search(mem, kind, path);
    match compare_at(mem, found.at, kind, path) {
        Ordering::Less => Place::At(found.base + 1),
        Ordering::Equal => Place::Found,
        Ordering::Greater => Place::At(found.base),
    }
}

// Whether there is room for one entry more, with a path of `len` bytes.
#[tactic(auto, using(crate::proofs::Puts::long_of))]
pub(crate) fn has_room(mem: &[u8], len: usize) -> bool
    requires { holds mem.now ≡ true }
    ensures { (e : Entry) → length e.path ≡ len → result ≡ has_room (table_of mem.now) e }
{
    let count = reading::word_at(mem, 0);
    if count >= MAX_ENTRIES {
        return false;
    }
    let bytes = reading::entry_offset(mem, count) - TABLE_HEAD - ENTRY_HEAD * count;
    len <= MAX_PATH_BYTES - bytes
}

// Whether an insert would add an entry and finds no room for it.
#[tactic(auto, unfolding(crate::specs::Acts::overflows, crate::specs::Acts::would_add, crate::specs::Acts::adds))]
pub fn overflows(mem: &[u8], kind: Kind, path: &[u8]) -> bool
    requires { holds mem.now ≡ true }
    ensures { result ≡ overflows (table_of mem.now) (record { kind = kind; path = path.now }) }
{
    match place(mem, kind, path) {
        Place::Found => false,
        Place::At(_) => !has_room(mem, path.len()),
    }
}
