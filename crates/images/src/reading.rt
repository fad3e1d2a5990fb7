// Reading an image word after word from lent words. Words that depart from the form in anything are malformed, and so are those whose content
// is no table.
ghost use Rattle.std.specs.Prelude.{◌≡◌, ◌≤◌, length, drop};
ghost use Rattle.table.specs.Tables.{max_entries};
ghost use Rattle.images.specs.Images.{read_entry, read_entries, read_image};
ghost use Rattle.images.specs.Steps.{ReadsEntry, are_entries, image_answer};

use crate::{ENTRY, ENTRY_UNIT, EntryRead, ImageRead, NUMBER, TABLE, TABLE_UNIT};
use paths::MAX_PATH;
use records::ACT_UNIT;
use records::reading::{read_path_of, run_of};
use records::words::{left_at, read_at, read_front};
use table::bits::marked;
use table::reading::kind_from;
use table::{MAX_ENTRIES, MAX_PATH_BYTES};

// Reads the entry that the words from a place on begin with, and its path into the lent space.
pub(crate) fn read_entry(words: &[u32], at: usize, space: &mut [u8; MAX_PATH]) -> Option<EntryRead>
    ensures { ReadsEntry at (read_entry (drop at words.now)) space.old result space.new }
{
    let read = read_at(words, at);
    let word = read.word?;
    let n = (word % 65536) as usize;
    if word / ENTRY_UNIT != ENTRY * 1024 || !(1..=MAX_PATH).contains(&n) {
        return None;
    }
    let path = read_path_of(words, n, read.at, left_at(words, read.at), space)?;
    Some(EntryRead {
        kind: kind_from((word / 65536 % 4) as u8),
        size: path.size,
        end: path.end,
    })
}

// Whether the words from a place on are so many entries and no more, within the limits of a table, and of the kinds that the marks say.
fn are_entries(words: &[u32], from: usize, count: usize, marks: u8) -> bool
    requires { (from ≤ length words.now) × (count ≤ max_entries) }
    ensures { result ≡ are_entries marks (read_entries count (drop from words.now)) }
{
    let mut space = [0u8; MAX_PATH];
    let mut at = from;
    let mut total = 0;
    let mut seen = 0;
    for _ in 0..count {
        let Some(entry) = read_entry(words, at, &mut space) else {
            return false;
        };
        total += entry.size;
        seen = marked(entry.kind, seen);
        at = entry.end;
    }
    at == words.len() && total <= MAX_PATH_BYTES && marks == seen
}

// Reads the image that lent words are.
pub fn read_image(words: &[u32]) -> Option<ImageRead>
    ensures { result ≡ image_answer (read_image words.now) }
{
    let front = read_front(words, 0);
    let run = run_of(front.run)?;
    let first = front.head?;
    let second = front.next?;
    if first / ACT_UNIT != NUMBER * 16 || second / TABLE_UNIT != TABLE * 2048 {
        return None;
    }
    let count = (second / 256 % 512) as usize;
    let marks = (second / 32 % 8) as u8;
    if count > MAX_ENTRIES || !are_entries(words, front.at, count, marks) {
        return None;
    }
    Some(ImageRead {
        run,
        number: u64::from(first % ACT_UNIT),
        switches: (second % 32) as u8,
        marks,
        count,
    })
}
