// Writing the image of a table: how many words it takes, and the words.
ghost use Rattle.std.specs.Prelude.{◌≡◌, ◌+◌, ◌≤◌, length};
ghost use Rattle.paths.specs.Copying.{begun, Appends};
ghost use Rattle.table.specs.Held.{entry_of};
ghost use Rattle.records.specs.Numbers.{max_run, max_number};
ghost use Rattle.images.specs.Images.{entry_words, image_words, image_size, max_image};

use crate::{ENTRY, IMAGE_HEAD, NUMBER, TABLE};
use records::RUN;
use records::writing::{word_of, words_for, write_path_words};
use table::held::{Entry, Table};

// How many words the image of a table takes.
pub fn image_size(table: &Table<'_>) -> usize
    ensures { (result ≡ image_size table.now) × (result ≤ max_image) }
{
    let mut size = IMAGE_HEAD;
    for entry in table.entries() {
        size += 1 + words_for(entry.path.len());
    }
    size
}

// Writes an entry's words, and says where they end.
fn write_entry(words: &mut [u32], at: usize, entry: Entry) -> usize
    requires { at + length (entry_words (entry_of entry)) ≤ length words.old }
    ensures { Appends (entry_words (entry_of entry.entry)) words.old at words.new result }
{
    let kind = u32::from(u8::from(entry.kind));
    words[at] = word_of(ENTRY, kind * 65536 + entry.path.len() as u32);
    write_path_words(words, at + 1, entry.path)
}

// Writes the image of a table under its run and a number, from the start of words that have room for it.
pub fn write_image(table: &Table<'_>, run: u32, number: u64, words: &mut [u32])
    requires { (run ≤ max_run) × (number ≤ max_number) × (image_size table.now ≤ length words.old) }
    ensures { words.new ≡ begun (image_words (record { run = run; number = number; table = table.now })) words.old }
{
    let low = table.count() as u32 * 256
        + u32::from(table.marks()) * 32
        + u32::from(table.switches());
    words[0] = word_of(RUN, run);
    words[1] = word_of(NUMBER, number as u32);
    words[2] = word_of(TABLE, low);
    let mut at = IMAGE_HEAD;
    for entry in table.entries() {
        at = write_entry(words, at, entry);
    }
}
