// Switches and marks: numbers in which each bit stands for one of them.
ghost use Rattle.std.specs.Prelude.{◌≡◌, ◌+◌, ◌<◌, ◌≤◌};
ghost use Rattle.table.specs.Tables.{has, set_bit, clear_bit, marked};

use crate::{HAS_FLAG_DENIED, HAS_FLAG_IGNORED, HAS_PROMPT_DENIED, Kind};

// Whether a number has the bit.
#[tactic(auto, unfolding(crate::specs::Tables::has))]
pub fn has(n: u8, bit: u8) -> bool
    requires { 0 < bit }
    ensures { result ≡ has n bit }
{
    n / bit % 2 == 1
}

// The number with the bit set, and the others as they are.
#[tactic(auto, unfolding(crate::specs::Tables::set_bit))]
pub fn set_bit(n: u8, bit: u8) -> u8
    requires { (0 < bit) × (n + bit < 256) }
    ensures { result ≡ set_bit n bit }
{
    if has(n, bit) { n } else { n + bit }
}

// The number without the bit.
#[tactic(auto, unfolding(crate::specs::Tables::clear_bit))]
pub fn clear_bit(n: u8, bit: u8) -> u8
    requires { 0 < bit }
    ensures { result ≡ clear_bit n bit }
{
    if has(n, bit) { n - bit } else { n }
}

// The marks when an entry of a kind is inserted; each mark is set at most once.
#[tactic(auto, unfolding(crate::specs::Tables::marked))]
pub fn marked(kind: Kind, marks: u8) -> u8
    requires { marks ≤ 7 }
    ensures { result ≡ marked kind marks }
{
    match kind {
        Kind::G => marks,
        Kind::D => set_bit(marks, HAS_FLAG_DENIED),
        Kind::P => set_bit(marks, HAS_PROMPT_DENIED),
        Kind::I => set_bit(marks, HAS_FLAG_IGNORED),
    }
}
