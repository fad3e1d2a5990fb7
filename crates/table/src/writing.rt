// Writing into lent memory: each function writes a run of bytes from an offset on, and nothing else.
ghost use Rattle.std.specs.Prelude.{◌≡◌, ◌+◌, ◌<◌, ◌≤◌, length, take, drop};
ghost use Rattle.paths.specs.Copying.{overwrite, Appends};
ghost use Rattle.table.specs.Memory.{table_head, entry_head, word, head_bytes, encode_entry};

use crate::{ENTRY_HEAD, Kind, LENGTH_OFFSET, MARKS_AT, SWITCHES_AT};
use paths::copying::copy_in;

// Moves n bytes to a higher offset, the last byte first.
fn move_up(mem: &mut [u8], from: usize, to: usize, n: usize)
    requires { (from ≤ to) × (to + n ≤ length mem.old) }
    ensures { mem.new ≡ overwrite mem.old to (take n (drop from mem.old)) }
{
    for i in (0..n).rev() {
        mem[to + i] = mem[from + i];
    }
}

// Moves n bytes to a lower offset, the first byte first.
fn move_down(mem: &mut [u8], from: usize, to: usize, n: usize)
    requires { (to ≤ from) × (from + n ≤ length mem.old) }
    ensures { mem.new ≡ overwrite mem.old to (take n (drop from mem.old)) }
{
    for i in 0..n {
        mem[to + i] = mem[from + i];
    }
}

// Moves n bytes from an offset to another; the two runs of bytes may overlap. No `copy_within`: it calls memmove, which the library would need from C
// besides memcpy and memset.
pub fn move_bytes(mem: &mut [u8], from: usize, to: usize, n: usize)
    requires { (from + n ≤ length mem.old) × (to + n ≤ length mem.old) }
    ensures { mem.new ≡ overwrite mem.old to (take n (drop from mem.old)) }
{
    if from < to {
        move_up(mem, from, to, n);
    } else {
        move_down(mem, from, to, n);
    }
}

// Writes a number into two bytes, high byte first.
fn write_word(mem: &mut [u8], at: usize, n: usize)
    requires { (n < 65536) × (at + 2 ≤ length mem.old) }
    ensures { mem.new ≡ overwrite mem.old at (word n) }
{
    copy_in(mem, at, &(n as u16).to_be_bytes());
}

// Writes the count.
pub(crate) fn set_count(mem: &mut [u8], n: usize)
    requires { (n < 65536) × (2 ≤ length mem.old) }
    ensures { mem.new ≡ overwrite mem.old 0 (word n) }
{
    write_word(mem, 0, n);
}

// Writes what stands before the entries: the count, the switches and the marks.
#[tactic(auto, using(crate::proofs::Overwrites::head_written))]
pub fn write_head(mem: &mut [u8], n: usize, switches: u8, marks: u8)
    requires { (n < 65536) × (table_head ≤ length mem.old) }
    ensures { mem.new ≡ overwrite mem.old 0 (head_bytes n switches marks) }
{
    set_count(mem, n);
    mem[SWITCHES_AT] = switches;
    mem[MARKS_AT] = marks;
}

// Writes an entry from an offset on.
pub(crate) fn write_entry(mem: &mut [u8], at: usize, kind: Kind, path: &[u8])
    requires { (length path.now < 65536) × (at + entry_head + length path.now ≤ length mem.old) }
    ensures { mem.new ≡ overwrite mem.old at (encode_entry (record { kind = kind; path = path.now })) }
{
    mem[at] = kind.into();
    write_word(mem, at + LENGTH_OFFSET, path.len());
    copy_in(mem, at + ENTRY_HEAD, path);
}

// Writes an entry from an offset on, and says where it ends.
#[tactic(auto, unfolding(crate::specs::Memory::encode_entry))]
pub fn append_entry(mem: &mut [u8], at: usize, kind: Kind, path: &[u8]) -> usize
    requires { (length path.now < 65536) × (at + entry_head + length path.now ≤ length mem.old) }
    ensures { Appends (encode_entry (record { kind = kind; path = path.now })) mem.old at mem.new result }
{
    write_entry(mem, at, kind, path);
    at + ENTRY_HEAD + path.len()
}
