// A path as it is shown: bytes that stand for themselves, and the others by their hexadecimal digits.
ghost use Rattle.std.specs.Prelude.{◌≡◌, ◌+◌, ◌*◌, ◌<◌, ◌≤◌, length};
ghost use Rattle.paths.specs.Copying.{Appends};
ghost use Rattle.text.specs.Escaping.{escaped_bytes, is_plain, digit, escaped_byte, escaped};

use paths::copying::append;

// 0 to 9, A to F.
pub fn hex_digit(k: u8) -> u8
    requires { k < 16 }
    ensures { result ≡ digit k }
{
    if k < 10 { b'0' + k } else { b'A' - 10 + k }
}

// Whether a byte stands for itself.
#[tactic(auto, unfolding(crate::specs::Escaping::is_plain))]
pub fn is_plain(byte: u8) -> bool
    ensures { result ≡ is_plain byte }
{
    byte.is_ascii_graphic() && byte != b'%'
}

// Writes a byte as it is shown.
#[tactic(auto, unfolding(crate::specs::Escaping::escaped_byte))]
pub fn append_byte(space: &mut [u8], at: usize, byte: u8) -> usize
    requires { at + escaped_bytes ≤ length space.old }
    ensures { Appends (escaped_byte byte) space.old at space.new result }
{
    if is_plain(byte) {
        append(space, at, &[byte])
    } else {
        append(
            space,
            at,
            &[b'%', hex_digit(byte / 16), hex_digit(byte % 16)],
        )
    }
}

// Writes a path as it is shown.
pub fn escape(space: &mut [u8], at: usize, path: &[u8]) -> usize
    requires { at + escaped_bytes * length path.now ≤ length space.old }
    ensures { Appends (escaped path.now) space.old at space.new result }
{
    let mut end = at;
    for byte in path {
        end = append_byte(space, end, *byte);
    }
    end
}
