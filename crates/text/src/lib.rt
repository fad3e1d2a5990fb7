// Pieces of a line of text, each written into lent space: escaped paths, numbers in decimal, and the letters of kinds. The definitions are in
// specs/.
#![tactic(auto)]

ghost use Rattle.std.specs.Prelude.{◌≡◌};
ghost use Rattle.text.specs.Text.{kind_letter};

use table::Kind;

pub mod decimals;
pub mod escaping;

// The most bytes that a byte of a path is written as.
pub const ESCAPED_BYTES: usize = 3;

// The most digits that a number of 64 bits has in decimal.
pub const DECIMAL_DIGITS: usize = 20;

// The letter of a kind. No `Display`: lines are put together in fixed memory, byte by byte.
pub fn kind_letter(kind: Kind) -> u8
    ensures { result ≡ kind_letter kind }
{
    match kind {
        Kind::G => b'G',
        Kind::D => b'D',
        Kind::P => b'P',
        Kind::I => b'I',
    }
}
