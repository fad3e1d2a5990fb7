// Inserting: an entry at its place, and the mark of its kind. Scope, "Placing an entry".
ghost use Rattle.std.specs.Prelude.{◌≡◌, true, Some, List, ℕ, ◌+◌, ◌<◌, ◌≤◌, length};
ghost use Rattle.table.specs.declared.Place.TheVariants.{Found, At};
ghost use Rattle.table.specs.Tables.{max_entries, max_path_bytes, path_bytes, is_entry};
ghost use Rattle.table.specs.Acts.{insert, inserted_by};
ghost use Rattle.table.specs.Memory.{word_at, table_of, holds, put};
ghost use Rattle.table.specs.Carrying.{CarriesOut};

use crate::bits::marked;
use crate::{ENTRY_HEAD, Kind, MARKS_AT, Place, placing, reading, writing};
use refusals::Refusal;

// Sets the mark of a kind: an insert that finds its entry in the list.
#[tactic(auto, using(crate::proofs::Puts::long_of, crate::proofs::Within::marks_low))]
fn set_mark(mem: &mut [u8], kind: Kind)
    requires { holds mem.old ≡ true }
    ensures { (p : List ℕ) → mem.new ≡ put (inserted_by Found (table_of mem.old) (record { kind = kind; path = p })) mem.old }
{
    mem[MARKS_AT] = marked(kind, mem[MARKS_AT]);
}

// Puts an entry at a place of the list, and sets its mark.
#[tactic(auto, using(crate::proofs::Puts::long_of, crate::proofs::Within::marks_low))]
fn insert_at(mem: &mut [u8], place: usize, kind: Kind, path: &[u8])
    requires mem_value { holds mem.old ≡ true }
    requires place_bound { (place ≤ word_at mem.old 0) × (word_at mem.old 0 < max_entries) }
    requires path_bound { path_bytes (table_of mem.old).entries + length path.now ≤ max_path_bytes }
    ensures { mem.new ≡ put (inserted_by (At place) (table_of mem.old) (record { kind = kind; path = path.now })) mem.old }
{
    let count = reading::word_at(mem, 0);
    let start = reading::entry_offset(mem, place);
    let end = reading::entry_offset(mem, count);
    let marks = marked(kind, mem[MARKS_AT]);
    writing::move_bytes(mem, start, start + ENTRY_HEAD + path.len(), end - start);
    writing::write_entry(mem, start, kind, path);
    writing::set_count(mem, count + 1);
    mem[MARKS_AT] = marks;
}

// Inserts an entry: it is refused, and nothing changes, where one would be added and there is no room for it.
pub(crate) fn insert_entry(mem: &mut [u8], kind: Kind, path: &[u8]) -> Result<(), Refusal>
    requires mem_value { holds mem.old ≡ true }
    requires path_value { is_entry (record { kind = kind; path = path.now }) ≡ true }
    ensures { CarriesOut (Some (insert (record { kind = kind; path = path.now }))) mem.old mem.new result }
{
    match placing::place(mem, kind, path) {
        Place::Found => set_mark(mem, kind),
        Place::At(k) => {
            if !placing::has_room(mem, path.len()) {
                return Err(Refusal::TableFull);
            }
            insert_at(mem, k, kind, path);
        }
    }
    Ok(())
}
