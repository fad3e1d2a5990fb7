// The texts: written when the operator is asked and when a check fails.
ghost use Rattle.std.specs.Prelude.{◌≡◌, ◌&&◌, ◌+◌, ◌≤◌, length};
ghost use Rattle.paths.specs.Copying.{Appends};
ghost use Rattle.deciding.specs.Texts.{opening, closing, display_name, begins, ends, format_display_name, text_of};
ghost use Rattle.deciding.specs.Steps.{HasText};

use paths::Descriptor;
use paths::copying::append;

// The name that is shown: a relative path as it was given, else the resolved path.
fn display_name<'a>(given: &'a [u8], resolved: &'a [u8]) -> &'a [u8]
    ensures { result.now ≡ display_name given.now resolved.now }
{
    if given.starts_with(b"/") {
        resolved
    } else {
        given
    }
}

// Whether a name begins with `<` and ends with `>`.
fn is_in_angles(name: &[u8]) -> bool
    ensures { result ≡ begins opening name.now && ends closing name.now }
{
    name.starts_with(b"<") && name.ends_with(b">")
}

// Writes a name as it is shown: in double quotes, unless it is in angle brackets.
fn append_name(space: &mut [u8], at: usize, name: &[u8]) -> usize
    requires { at + length name.now + 2 ≤ length space.old }
    ensures { Appends (format_display_name name.now) space.old at space.new result }
{
    if is_in_angles(name) {
        return append(space, at, name);
    }
    let from = append(space, at, b"\"");
    let end = append(space, from, name);
    append(space, end, b"\"")
}

// Writes the text of what is asked about from the space's start on, and says how long it is.
pub fn write_text(space: &mut [u8], d: Descriptor, given: &[u8], resolved: &[u8]) -> usize
    requires { HasText d given.now resolved.now space.old }
    ensures { Appends (text_of d given.now resolved.now) space.old 0 space.new result }
{
    let end = append(space, 0, b"read access");
    match d {
        Descriptor::NoPath => end,
        Descriptor::Path => {
            let at = append(space, end, b" to ");
            append_name(space, at, display_name(given, resolved))
        }
    }
}
