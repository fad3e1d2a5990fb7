// Input, part by part: what a turn of a loop over it does whoever takes its bytes, and the words in bytes. The definitions are in
// specs/.
#![tactic(auto)]

pub mod parts;
pub mod words;

// A proved loop has to end, and nothing says that the input does: so many reads, more than any run makes. What they can bring is counted in
// 64 bits.
pub const READS: u64 = 0x1_0000_0000_0000;
