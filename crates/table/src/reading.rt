// Reading a table in lent memory: numbers, kinds, paths, and where the entries begin.
ghost use Rattle.std.specs.Prelude.{◌≡◌, true, ◌+◌, ◌<◌, ◌≤◌, length};
ghost use Rattle.table.specs.Memory.{table_head, word_at, next_at, kind_from, entry_at, offset_at, are_within, holds};

use crate::{ENTRY_HEAD, Kind, LENGTH_OFFSET, TABLE_HEAD};

// ---- bytes

// The number in two bytes, high byte first.
pub fn word_at(mem: &[u8], at: usize) -> usize
    requires { at + 1 < length mem.now }
    ensures { (result ≡ word_at mem.now at) × (result < 65536) }
{
    u16::from_be_bytes([mem[at], mem[at + 1]]) as usize
}

// The kind of a kind byte.
#[tactic(auto, unfolding(crate::specs::Entries::kind_of, crate::specs::Entries::known_kind, crate::specs::Memory::kind_in))]
pub fn kind_from(byte: u8) -> Kind
    ensures { result ≡ kind_from byte }
{
    Kind::try_from(u32::from(byte)).unwrap_or(Kind::I)
}

// The path of the entry at an offset.
pub(crate) fn entry_path(mem: &[u8], at: usize) -> &[u8]
    requires { next_at mem.now at ≤ length mem.now }
    ensures { result.now ≡ (entry_at mem.now at).path }
{
    let start = at + ENTRY_HEAD;
    let end = start + word_at(mem, at + LENGTH_OFFSET);
    &mem[start..end]
}

// ---- places of the list

// Where the entry begins that is n places on from the one at an offset.
pub(crate) fn hop(mem: &[u8], from: usize, n: usize) -> usize
    requires { are_within mem.now n from ≡ true }
    ensures { result ≡ offset_at mem.now n from }
{
    let mut at = from;
    for _ in 0..n {
        at += ENTRY_HEAD + word_at(mem, at + LENGTH_OFFSET);
    }
    at
}

// Where the entry at a place of the list begins; for the count, where the entries end.
pub(crate) fn entry_offset(mem: &[u8], place: usize) -> usize
    requires { (holds mem.now ≡ true) × (place ≤ word_at mem.now 0) }
    ensures { result ≡ offset_at mem.now place table_head }
{
    hop(mem, TABLE_HEAD, place)
}
