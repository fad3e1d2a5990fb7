// Whether lent memory holds a table.
ghost use Rattle.std.specs.Prelude.{◌≡◌, ◌+◌, ◌≤◌, length};
ghost use Rattle.table.specs.Tables.{max_entries, max_path_bytes};
ghost use Rattle.table.specs.Memory.{table_head, entry_head, table_bytes, holds};
ghost use Rattle.table.specs.Scanning.{entry_fits, scanned};

use crate::bits::marked;
use crate::reading::{entry_path, kind_from, word_at};
use crate::{
    ENTRY_HEAD, LENGTH_OFFSET, MARKS_AT, MAX_ENTRIES, MAX_KIND, MAX_PATH_BYTES, MAX_SWITCHES,
    SWITCHES_AT, TABLE_BYTES, TABLE_HEAD,
};
use paths::MAX_PATH;
use paths::resolving::is_resolved;

// Whether the entry at an offset has a known kind and a resolved path within its limit, with `room` path bytes left.
fn entry_fits(mem: &[u8], room: usize, at: usize) -> bool
    requires { at + entry_head + room ≤ length mem.now }
    ensures { result ≡ entry_fits mem.now room at }
{
    let len = word_at(mem, at + LENGTH_OFFSET);
    mem[at] <= MAX_KIND && len <= MAX_PATH && len <= room && is_resolved(entry_path(mem, at))
}

// Whether `count` entries from the first on fit, and are of the kinds that the marks say.
fn entries_fit(mem: &[u8], count: usize) -> bool
    requires { (table_bytes ≤ length mem.now) × (count ≤ max_entries) }
    ensures { result ≡ scanned mem.now count max_path_bytes 0 table_head }
{
    let mut room = MAX_PATH_BYTES;
    let mut at = TABLE_HEAD;
    let mut seen = 0;
    for _ in 0..count {
        if !entry_fits(mem, room, at) {
            return false;
        }
        seen = marked(kind_from(mem[at]), seen);
        let len = word_at(mem, at + LENGTH_OFFSET);
        room -= len;
        at += ENTRY_HEAD + len;
    }
    seen == mem[MARKS_AT]
}

// Whether the memory is large enough for any table and holds one.
pub fn holds_table(mem: &[u8]) -> bool
    ensures { result ≡ holds mem.now }
{
    if mem.len() < TABLE_BYTES {
        return false;
    }
    let count = word_at(mem, 0);
    count <= MAX_ENTRIES && mem[SWITCHES_AT] <= MAX_SWITCHES && entries_fit(mem, count)
}
