// Numbers in decimal, by themselves or after a label.
ghost use Rattle.std.specs.Prelude.{◌++◌, ◌+◌, ◌≤◌, length};
ghost use Rattle.paths.specs.Copying.{Appends};
ghost use Rattle.text.specs.Text.{decimal_digits, decimal};

use itoa::Buffer;
use paths::copying::append;

// Writes a number in decimal.
pub fn append_decimal(space: &mut [u8], at: usize, n: u64) -> usize
    requires { at + decimal_digits ≤ length space.old }
    ensures { Appends (decimal n) space.old at space.new result }
{
    let mut digits = Buffer::new();
    append(space, at, digits.format(n).as_bytes())
}

// Writes a label, and a number in decimal after it.
pub fn append_labelled(space: &mut [u8], at: usize, label: &[u8], n: u64) -> usize
    requires { at + length label.now + decimal_digits ≤ length space.old }
    ensures { Appends (label.now ++ decimal n) space.old at space.new result }
{
    let from = append(space, at, label);
    append_decimal(space, from, n)
}
