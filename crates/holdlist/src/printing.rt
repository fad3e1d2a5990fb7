// What is printed: a line with numbers, a line for each entry, and where reading stopped.
ghost use Rattle.std.specs.Prelude.{◌≡◌, true, false, ◌+◌, ◌*◌, ◌≤◌, length};
ghost use Rattle.paths.specs.Copying.{Appends};
ghost use Rattle.table.specs.Tables.{path_bytes};
ghost use Rattle.table.specs.Held.{entry_of};
ghost use Rattle.standby.specs.Arriving.{conflict};
ghost use Rattle.text.specs.Escaping.{escaped_bytes};
ghost use Rattle.holdlist.specs.Lines.{header_bytes, header, line_bytes, entry_line, entry_lines, stopped_bytes, stopped_line, listing_of, listing_bytes};

use crate::Held;
use paths::copying::append;
use standby::Numbers;
use standby::owing::owed;
use table::held::{Entries, Entry, Table};
use table::{MAX_ENTRIES, MAX_PATH_BYTES};
use text::decimals::append_labelled;
use text::escaping::escape;
use text::{DECIMAL_DIGITS, ESCAPED_BYTES, kind_letter};

// The labels and newlines of the header and of the line where reading stopped; six numbers stand among them.
const LABEL_BYTES: usize = 58;

// The letter, the space and the newline of an entry's line.
const LINE_BYTES: usize = 3;

// Room for all that can be printed.
pub const LISTING_BYTES: usize = LABEL_BYTES
    + 6 * DECIMAL_DIGITS
    + ESCAPED_BYTES * MAX_PATH_BYTES
    + LINE_BYTES * MAX_ENTRIES;

// Writes the header from the space's start. The numbers are a standby's, so that what is owed is told.
fn write_header(space: &mut [u8], table: &Table, numbers: Numbers) -> usize
    requires { (conflict numbers ≡ false) × (header_bytes ≤ length space.old) }
    ensures { Appends (header table.now numbers) space.old 0 space.new result }
{
    let counted = append_labelled(space, 0, b"entries ", table.count() as u64);
    let numbered = append_labelled(space, counted, b" changes ", numbers.n);
    let owing = append_labelled(space, numbered, b" owed ", owed(numbers).unwrap());
    let switched = append_labelled(space, owing, b" switches ", u64::from(table.switches()));
    let marked = append_labelled(space, switched, b" marks ", u64::from(table.marks()));
    append(space, marked, b"\n")
}

// Writes the line of an entry.
fn append_entry(space: &mut [u8], at: usize, entry: Entry) -> usize
    requires { at + escaped_bytes * length (entry_of entry).path + line_bytes ≤ length space.old }
    ensures { Appends (entry_line (entry_of entry.entry)) space.old at space.new result }
{
    let from = append(space, at, &[kind_letter(entry.kind), b' ']);
    let end = escape(space, from, entry.path);
    append(space, end, b"\n")
}

// Writes a line for each entry, in list order.
fn append_entries(space: &mut [u8], at: usize, entries: Entries) -> usize
    requires { at + escaped_bytes * path_bytes entries + line_bytes * length entries ≤ length space.old }
    ensures { Appends (entry_lines entries.entry) space.old at space.new result }
{
    let mut end = at;
    for entry in entries {
        end = append_entry(space, end, entry);
    }
    end
}

// Writes where reading stopped.
fn append_stopped(space: &mut [u8], at: usize, words: usize) -> usize
    requires { at + stopped_bytes ≤ length space.old }
    ensures { Appends (stopped_line words) space.old at space.new result }
{
    let end = append_labelled(space, at, b"stopped at word ", words as u64);
    append(space, end, b"\n")
}

// Writes all that is printed from the space's start, and says how many bytes that is.
pub fn write_listing(space: &mut [u8], table: &Table, held: Held) -> usize
    requires { (conflict held.numbers ≡ false) × (listing_bytes ≤ length space.old) }
    ensures { Appends (listing_of table.now held.numbers held.words held.stopped) space.old 0 space.new result }
{
    let entries = table.entries();
    let from = write_header(space, table, held.numbers);
    let end = append_entries(space, from, entries);
    if held.stopped {
        append_stopped(space, end, held.words)
    } else {
        end
    }
}
