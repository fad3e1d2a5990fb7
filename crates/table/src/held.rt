// A table that lent memory holds, to be read. Who has one knows that the memory holds a table: it was tested when this was made.
ghost use Rattle.std.specs.Prelude.{◌≡◌, true, ◌<◌, ◌≤◌, length};
ghost use Rattle.table.specs.Tables.{max_entries, max_switches, has, is_entry, is_table};
ghost use Rattle.table.specs.Acts.{overflows};
ghost use Rattle.table.specs.Memory.{table_bytes, table_of, holds, put};
ghost use Rattle.table.specs.Listing.{used_bytes};
ghost use Rattle.table.specs.Calls.{table_in};

use crate::holding::holds_table;
use crate::reading::{entry_offset, entry_path, kind_from, word_at};
use crate::{ENTRY_HEAD, Kind, LENGTH_OFFSET, MARKS_AT, SWITCHES_AT, TABLE_HEAD, bits, placing};
use paths::copying::copy_in;
use refusals::Refusal;
use std::marker::Model;

#[derive(Drop)]
pub struct Table<'a> {
    mem: &'a [u8],
}

impl<'a> Model for Table<'a> {
    ghost use Rattle.table.specs.Tables.{Table};
    ghost use Rattle.table.specs.Memory.{table_of};
    ghost use Rattle.table.specs.Holding.{HoldsTable};

    ghost Value = { Table };

    ghost view = { λ t. table_of t.mem.now };

    ghost invariant = { λ t. HoldsTable t.mem.now };
}

impl<'a> Table<'a> {
    // The table of memory that is known to hold one.
    pub fn of(mem: &'a [u8]) -> Table<'a>
        requires { holds mem.now ≡ true }
        ensures { result ≡ table_of mem.now }
    {
        Table { mem }
    }

    // Its switches.
    pub fn switches(&self) -> u8
        ensures { (result ≡ self.now.switches) × (result ≤ max_switches) }
    {
        self.mem[SWITCHES_AT]
    }

    // Its marks.
    pub fn marks(&self) -> u8
        ensures { (result ≡ self.now.marks) × (result ≤ 7) }
    {
        self.mem[MARKS_AT]
    }

    // Whether a switch is set.
    pub fn has_switch(&self, bit: u8) -> bool
        requires { 0 < bit }
        ensures { result ≡ has self.now.switches bit }
    {
        bits::has(self.switches(), bit)
    }

    // Whether a mark is set.
    pub fn has_mark(&self, bit: u8) -> bool
        requires { 0 < bit }
        ensures { result ≡ has self.now.marks bit }
    {
        bits::has(self.marks(), bit)
    }

    // How many entries it has.
    pub fn count(&self) -> usize
        ensures { (result ≡ length self.now.entries) × (result ≤ max_entries) }
    {
        word_at(self.mem, 0)
    }

    // How many bytes it takes.
    pub fn used(&self) -> usize
        ensures { (result ≡ used_bytes self.now) × (result ≤ table_bytes) }
    {
        entry_offset(self.mem, word_at(self.mem, 0))
    }

    // Writes it into other memory that is large enough.
    pub fn copy_to(&self, to: &mut [u8])
        requires { table_bytes ≤ length to.old }
        ensures { to.new ≡ put self.now to.old }
    {
        let end = self.used();
        copy_in(to, 0, &self.mem[..end]);
    }

    // Its entries, in list order. A table keeps to the limits.
    pub fn entries(&self) -> Entries<'a>
        ensures list { result ≡ self.now.entries }
        ensures limits { is_table self.now ≡ true }
    {
        Entries {
            mem: self.mem,
            at: TABLE_HEAD,
            left: word_at(self.mem, 0),
        }
    }

    // Whether an insert would add an entry and finds no room for it.
    pub fn overflows(&self, kind: Kind, path: &[u8]) -> bool
        ensures { result ≡ overflows self.now (record { kind = kind; path = path.now }) }
    {
        placing::overflows(self.mem, kind, path)
    }
}

impl<'a> TryFrom<&'a [u8]> for Table<'a> {
    type Error = Refusal;

    ghost try_from_gives = { λ mem r. r ≡ table_in mem.now };

    fn try_from(mem: &'a [u8]) -> Result<Table<'a>, Refusal> {
        if !holds_table(mem) {
            return Err(Refusal::NoTable);
        }
        Ok(Table { mem })
    }
}

// An entry of a table: its kind, and its path, which is resolved and within its limit.
#[derive(Clone, Copy)]
pub struct Entry<'a> {
    pub kind: Kind,
    pub path: &'a [u8],
    ghost sound: { is_entry (record { kind = kind; path = «path».now }) ≡ true },
}

// The entries of a table from one on, in list order.
#[derive(Drop)]
pub struct Entries<'a> {
    mem: &'a [u8],
    at: usize,
    left: usize,
}

impl<'a> Model for Entries<'a> {
    ghost use Rattle.std.specs.Prelude.{List};
    ghost use Rattle.table.specs.Entries.{Entry};
    ghost use Rattle.table.specs.Memory.{entries_at};
    ghost use Rattle.table.specs.Reading.{Rest};

    ghost Value = { List Entry };

    ghost view = { λ s. entries_at s.mem.now s.left s.at };

    ghost invariant = { λ s. Rest s.mem.now s.left s.at };
}

impl<'a> Iterator for Entries<'a> {
    ghost use Rattle.std.specs.Iterator.{YieldsFirstBy, item_count};
    ghost use Rattle.table.specs.Held.{entry_of};

    type Item = Entry<'a>;

    ghost next_gives = { YieldsFirstBy entry_of (λ s. s) };

    ghost remaining = { item_count (λ s. s) };

    fn next(&mut self) -> Option<Entry<'a>> {
        if self.left == 0 {
            return None;
        }
        let at = self.at;
        let mem = self.mem;
        self.at = at + ENTRY_HEAD + word_at(mem, at + LENGTH_OFFSET);
        self.left -= 1;
        Some(Entry {
            kind: kind_from(mem[at]),
            path: entry_path(mem, at),
        })
    }
}
