// Copying bytes into lent memory.
ghost use Rattle.std.specs.Prelude.{◌≡◌, ◌+◌, ◌≤◌, length};
ghost use Rattle.paths.specs.Copying.{overwrite, Appends};

// Copies src into mem from an offset on.
pub fn copy_in(mem: &mut [u8], at: usize, src: &[u8])
    requires { at + length src.now ≤ length mem.old }
    ensures { mem.new ≡ overwrite mem.old at src.now }
{
    // no `copy_from_slice`: it calls memmove, which the library would need from C besides memcpy and memset
    for i in 0..src.len() {
        mem[at + i] = src[i];
    }
}

// Writes a piece into the space from an offset on, and says where it ends. Here and above the offset stands beside lent space, which is fixed memory and has
// no length that grows.
pub fn append(space: &mut [u8], at: usize, piece: &[u8]) -> usize
    requires { at + length piece.now ≤ length space.old }
    ensures { Appends piece.now space.old at space.new result }
{
    copy_in(space, at, piece);
    at + piece.len()
}
