// Images: a whole table with its run and the number of its last change as 32-bit words, written, read back, and loaded into memory. The definitions are in
// specs/.
#![tactic(auto)]

use table::Kind;

pub mod loading;
pub mod reading;
pub mod writing;

// The kinds of an image's words.
const NUMBER: u32 = 5;

const TABLE: u32 = 6;

const ENTRY: u32 = 7;

// Below a table word's kind bits nine bits of the count stand next to its marks and switches, below an entry word's two bits of the kind
// next to its path's length.
const TABLE_UNIT: u32 = 0x2_0000;

const ENTRY_UNIT: u32 = 0x4_0000;

// The words before the first entry's.
const IMAGE_HEAD: usize = 3;

// An entry that was read: its kind, how many bytes its path has in the lent space, and where the words behind it begin.
#[derive(Clone, Copy)]
pub struct EntryRead {
    pub kind: Kind,
    pub size: usize,
    pub end: usize,
}

// An image that was read: its run, its number, the table's switches and marks, and how many entries it has.
#[derive(Clone, Copy)]
pub struct ImageRead {
    pub run: u32,
    pub number: u64,
    pub switches: u8,
    pub marks: u8,
    pub count: usize,
}
