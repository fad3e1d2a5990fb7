// Revoking grants and setting the switches: acts on memory that holds a table. Scope, "A call comes in" (revoke).
ghost use Rattle.std.specs.Prelude.{◌≡◌, ℕ, List, Bool, true, ◌<◌, ◌≤◌, length, set};
ghost use Rattle.table.specs.Tables.{max_switches};
ghost use Rattle.table.specs.Acts.{set_switches, revoke, revoke_all, dropped_by, dropping};
ghost use Rattle.table.specs.Changing.{Selects};
ghost use Rattle.table.specs.Memory.{switches_at, table_of, holds, put, do_act};

use crate::bits::clear_bit;
use crate::{ENTRY_HEAD, GRANTED, Kind, LENGTH_OFFSET, SWITCHES_AT, TABLE_HEAD, reading, writing};
use paths::relating::is_prefix;

// Drops the grants whose paths are selected, and closes the gaps: each entry that stays is moved down at most once.
#[tactic(auto, using(crate::proofs::Puts::long_of))]
fn drop_grants<F: Fn(&[u8]) -> bool>(mem: &mut [u8], selects: F)
    requires mem_value { holds mem.old ≡ true }
    requires callable { F.IsAlwaysCallable selects }
    ensures { (selected : List ℕ → Bool) → Selects F.Fn selects selected → mem.new ≡ put (dropping (dropped_by selected) (table_of mem.old)) mem.old }
{
    let mut kept = 0;
    let mut from = TABLE_HEAD;
    let mut to = TABLE_HEAD;
    for _ in 0..reading::word_at(mem, 0) {
        let size = reading::word_at(mem, from + LENGTH_OFFSET) + ENTRY_HEAD;
        let goes = reading::kind_from(mem[from]) == Kind::G
            && selects(reading::entry_path(mem, from));
        if !goes {
            writing::move_bytes(mem, from, to, size);
            to += size;
            kept += 1;
        }
        from += size;
    }
    writing::set_count(mem, kept);
}

// Writes the switches.
fn write_switches(mem: &mut [u8], switches: u8)
    requires { switches_at < length mem.old }
    ensures { mem.new ≡ set mem.old switches_at switches }
{
    mem[SWITCHES_AT] = switches;
}

// Drops every grant whose path is a prefix of q.
#[tactic(auto, unfolding(crate::specs::Memory::do_act, crate::specs::Acts::apply_act))]
pub(crate) fn revoke_path(mem: &mut [u8], q: &[u8])
    requires { holds mem.old ≡ true }
    ensures { mem.new ≡ do_act mem.old (revoke q.now) }
{
    drop_grants(mem, |path| is_prefix(path, q));
}

// Drops every grant, and clears the switch of the grants.
#[tactic(auto, using(crate::proofs::Puts::long_of))]
pub(crate) fn revoke_grants(mem: &mut [u8])
    requires { holds mem.old ≡ true }
    ensures { mem.new ≡ do_act mem.old revoke_all }
{
    drop_grants(mem, |_| true);
    let switches = clear_bit(mem[SWITCHES_AT], GRANTED);
    write_switches(mem, switches);
}

// Sets the switches.
#[tactic(auto, using(crate::proofs::Puts::long_of))]
pub(crate) fn set_switches_byte(mem: &mut [u8], switches: u8)
    requires { (holds mem.old ≡ true) × (switches ≤ max_switches) }
    ensures { mem.new ≡ do_act mem.old (set_switches switches) }
{
    write_switches(mem, switches);
}
