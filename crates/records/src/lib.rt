// Records: a change of the main's table as 32-bit words, written and read back. The definitions are in specs/.
#![tactic(auto)]

use table::Action;

pub mod numbers;
pub mod reading;
pub mod words;
pub mod writing;

// The kinds of a word, in its top four bits, and what stands below them.
const HEAD: u32 = 1;

const LENGTH: u32 = 2;

const PATH: u32 = 3;

const SWITCHES: u32 = 4;

pub const RUN: u32 = 8;

pub const KIND_UNIT: u32 = 0x1000_0000;

// In a head four act bits stand next, and the change number below them.
pub const ACT_UNIT: u32 = 0x100_0000;

// The greatest change number, and the greatest run number.
pub const MAX_NUMBER: u64 = 16777215;

pub const MAX_RUN: u32 = 268435455;

// The words that the longest record takes: a path of 1,024 bytes, its length, the head and the run word.
pub const RECORD_WORDS: usize = 345;

// Room for the bytes of as many words as the longest path takes.
const PATH_ROOM: usize = 1026;

// A record that was read: its run, its number, its act, how many bytes its path has in the lent space, and where the words behind it begin.
#[derive(Clone, Copy)]
pub struct Record {
    pub run: u32,
    pub number: u64,
    pub action: Action,
    pub size: usize,
    pub end: usize,
}

// A path that was read: how many bytes it has, and where the words behind it begin.
#[derive(Clone, Copy)]
pub struct PathRead {
    pub size: usize,
    pub end: usize,
}
