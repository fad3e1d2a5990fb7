// The table: entries in sequence, switches and marks, in lent memory, and the acts on it. The definitions are in specs/.
#![tactic(auto)]

pub mod acting;
pub mod bits;
pub mod carrying;
pub mod comparing;
pub mod held;
pub mod holding;
pub mod inserting;
pub mod kinds;
pub mod listing;
pub mod placing;
pub mod reading;
pub mod revoking;
pub mod writing;

// The bytes before the first entry, and those before an entry's path.
pub const TABLE_HEAD: usize = 4;

const ENTRY_HEAD: usize = 3;

// Where in a table the switches and the marks stand, and where in an entry its path length.
const SWITCHES_AT: usize = 2;

const MARKS_AT: usize = 3;

const LENGTH_OFFSET: usize = 1;

// The bytes of the largest table.
pub const TABLE_BYTES: usize = TABLE_HEAD + ENTRY_HEAD * MAX_ENTRIES + MAX_PATH_BYTES;

// Limits: entries, the sum of their path lengths, the last kind, and all five switches.
pub const MAX_ENTRIES: usize = 256;

pub const MAX_PATH_BYTES: usize = 32768;

const MAX_KIND: u8 = 3;

pub const MAX_SWITCHES: u8 = 31;

// Switches.
pub const GRANTED: u8 = 1;

pub const FLAG_DENIED: u8 = 2;

pub const FLAG_IGNORED: u8 = 4;

pub const PROMPT_DENIED: u8 = 8;

pub const PROMPT: u8 = 16;

// Marks.
pub const HAS_FLAG_DENIED: u8 = 1;

pub const HAS_PROMPT_DENIED: u8 = 2;

pub const HAS_FLAG_IGNORED: u8 = 4;

// The kinds of an entry, by the scope's letters. The Rust's names are Granted, FlagDenied, PromptDenied and FlagIgnored.
#[derive(Clone, Copy, PartialEq, Eq)]
pub enum Kind {
    G,
    D,
    P,
    I,
}

// Where an insert puts its entry: nowhere, as an equal one is found, or at a place of the list. No `Option`: `Found` says what `None` would not.
#[derive(Clone, Copy)]
pub enum Place {
    Found,
    At(usize),
}

// What a call makes of a table: nothing, or an act, without its path, which is lent beside it.
#[derive(Clone, Copy)]
pub enum Action {
    Nothing,
    Insert(Kind),
    SetSwitches(u8),
    Revoke,
    RevokeAll,
}

// An entry of a table's list: its kind, where its path begins in the memory and how many bytes it has.
#[derive(Clone, Copy)]
pub struct Listed {
    pub kind: Kind,
    pub at: usize,
    pub size: usize,
}
