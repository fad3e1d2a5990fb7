// A turn of a loop over input: one read after the bytes that are left, and, once some are taken, what is left of them to the buffer's
// front.
ghost use Rattle.std.specs.Prelude.{◌≤◌, length};
ghost use Rattle.input.specs.Parts.{ReadsAfter, KeepsRest};

use std::io;
use std::io::Read;

// Reads once, after the first `left` bytes of the buffer, and says how many bytes came: 0 at the input's end.
pub fn read_after<R: Read>(reader: &mut R, buffer: &mut [u8], left: usize) -> io::Result<usize>
    requires { left ≤ length buffer.old }
    ensures { ReadsAfter buffer.old left buffer.new result }
{
    reader.read(&mut buffer[left..])
}

// Of the buffer's first `len` bytes the first `taken` are done with: moves the others to its front, and says how many they are.
pub fn keep_rest(buffer: &mut [u8], len: usize, taken: usize) -> usize
    requires { (taken ≤ len) × (len ≤ length buffer.old) }
    ensures { KeepsRest buffer.old len taken buffer.new result }
{
    buffer.copy_within(taken..len, 0);
    len - taken
}
