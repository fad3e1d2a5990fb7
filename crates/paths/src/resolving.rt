// Resolved form, and resolving a path in a working directory.
ghost use Rattle.std.specs.Prelude.{◌≡◌, true, false, [], ◌∷◌, ◌++◌, ◌+◌, ◌-◌, ◌≤◌, ◌<◌, length, get_or, take};
ghost use Rattle.paths.specs.Components.{slash, pieces, slashed};
ghost use Rattle.paths.specs.Resolving.{is_absolute, join, is_name, enter_all, is_resolved, max_path, is_bad_directory, Resolves};
ghost use Rattle.paths.specs.Scanning.{all_names, plain_pair, plain_eight, PlainBelow};
ghost use Rattle.paths.specs.Entering.{before_last, entered_bytes, enter_all_bytes, Begins, rooted};
ghost use Rattle.paths.specs.Answering.{too_long, Answers};

use crate::copying::append;
use crate::{JOINED_BYTES, MAX_PATH};
use refusals::Refusal;

// Whether a component is a name: not empty, not `.`, not `..`.
#[tactic(auto, using(crate::proofs::Scanning::names))]
fn is_name(c: &[u8]) -> bool
    ensures { result ≡ is_name c.now }
{
    c.len() > 2 || !matches!(c, b"" | b"." | b"..")
}

// Whether every component is a name. Not inlined: by itself the loop compiles to one instruction less for each byte.
#[inline(never)]
#[tactic(auto, using(crate::proofs::Scanning::testing))]
fn all_names(p: &[u8]) -> bool
    ensures { result ≡ all_names (pieces p.now) }
{
    let mut from = 0;
    // no `split`: it costs more for each component, and the memory test runs this over each path with a dot in front of a name
    for (i, b) in p.iter().enumerate() {
        if *b == b'/' {
            if !is_name(&p[from..i]) {
                return false;
            }
            from = i + 1;
        }
    }
    is_name(&p[from..])
}

// Whether a is no slash, or one behind which neither a slash nor a dot stands.
fn plain_pair(a: u8, b: u8) -> bool
    ensures { result ≡ plain_pair a b }
{
    (a != b'/') | ((b != b'/') & (b != b'.'))
}

// The same of eight bytes from an offset on, each with the next. `&` and no `all`: with no branch between them they are tested at once.
fn plain_eight(p: &[u8], at: usize) -> bool
    requires { at + 8 < length p.now }
    ensures { result ≡ plain_eight p.now at }
{
    p[at..at + 9]
        .windows(2)
        .fold(true, |all, w| all & plain_pair(w[0], w[1]))
}

// The same of the bytes before the last.
fn plain_bytes(p: &[u8]) -> bool
    ensures { result ≡ true → PlainBelow p.now (length p.now - 1) }
{
    // no `windows`: it costs more for each byte
    for k in 1..p.len() {
        if !plain_pair(p[k - 1], p[k]) {
            return false;
        }
    }
    true
}

// Whether a quick test finds p in resolved form: no component behind the first slash is empty or begins with a dot.
#[tactic(auto, using(crate::proofs::Scanning::plain))]
fn is_plain(p: &[u8]) -> bool
    requires { (1 < length p.now) × (get_or p.now 0 0 ≡ slash) }
    ensures { result ≡ true → is_resolved p.now ≡ true }
{
    let last = p.len() - 1;
    if p[last] == b'/' {
        return false;
    }
    if last < 8 {
        return plain_bytes(p);
    }
    // by index: `step_by` compiles to more per turn
    let mut k: usize = 0;
    while last - k > 8 {
        if !plain_eight(p, k) {
            return false;
        }
        k += 8;
    }
    plain_eight(p, last - 8)
}

// Whether p is in resolved form.
#[tactic(auto, using(crate::proofs::Scanning::resolved))]
pub fn is_resolved(p: &[u8]) -> bool
    ensures { result ≡ is_resolved p.now }
{
    is_absolute(p) && (p.len() == 1 || is_plain(p) || all_names(&p[1..]))
}

// Puts a slash and a name behind the first len bytes of the work area, and says how many bytes there are then. The area has its count beside it, since
// it grows in fixed memory.
#[tactic(auto, using(crate::proofs::Entering::adding))]
fn add_name(work: &mut [u8], len: usize, c: &[u8]) -> usize
    requires { len + 1 + length c.now ≤ length work.old }
    ensures { Begins work.new result (len + 1 + length c.now) (take len work.old ++ slash ∷ c.now) }
{
    work[len] = b'/';
    append(work, len + 1, c)
}

// Where the last slash stands, or 0.
fn last_slash(entered: &[u8]) -> usize
    ensures { Begins entered.now result (length entered.now) (before_last entered.now) }
{
    entered.iter().rposition(|b| *b == b'/').unwrap_or(0)
}

// Enters a component: an empty one and `.` change nothing, `..` goes back to the last slash, and a name is added.
#[tactic(auto, using(crate::proofs::Entering::entering))]
fn enter(work: &mut [u8], len: usize, c: &[u8]) -> usize
    requires { len + 1 + length c.now ≤ length work.old }
    ensures { Begins work.new result (len + 1 + length c.now) (entered_bytes (take len work.old) c.now) }
{
    match c {
        b"" | b"." => len,
        b".." => last_slash(&work[..len]),
        name => add_name(work, len, name),
    }
}

// Enters the components of a path. Inlined: in `resolve` the work area is known to lie apart from src, so that a name is copied by memcpy.
#[inline(always)]
fn enter_all(work: &mut [u8], len: usize, src: &[u8]) -> usize
    requires { len + length src.now + 1 ≤ length work.old }
    ensures { Begins work.new result (len + length src.now + 1) (enter_all_bytes (take len work.old) (pieces src.now)) }
{
    let mut n = len;
    let mut from = 0;
    // no `split`, as in `all_names`
    for (i, b) in src.iter().enumerate() {
        if *b == b'/' {
            n = enter(work, n, &src[from..i]);
            from = i + 1;
        }
    }
    enter(work, n, &src[from..])
}

// Whether a path begins with a slash.
#[tactic(auto, unfolding(crate::specs::Resolving::is_absolute))]
fn is_absolute(p: &[u8]) -> bool
    ensures { result ≡ is_absolute p.now }
{
    p.first() == Some(&b'/')
}

// Whether a relative path comes with a working directory that is empty, too long or relative itself.
#[tactic(auto, using(crate::proofs::Answering::same_empty), unfolding(crate::specs::Resolving::is_bad_directory))]
fn is_bad_directory(path: &[u8], cwd: &[u8]) -> bool
    ensures { result ≡ is_bad_directory path.now cwd.now }
{
    !is_absolute(path) && (cwd.is_empty() || cwd.len() > MAX_PATH || !is_absolute(cwd))
}

// Enters the components of a path, behind those of the working directory where the path is relative.
fn enter_joined(work: &mut [u8], path: &[u8], cwd: &[u8]) -> usize
    requires { (2050 ≤ length work.old) × (length path.now ≤ max_path) × (is_bad_directory path.now cwd.now ≡ false) }
    ensures { Begins work.new result 2050 (slashed (enter_all [] (pieces (join cwd.now path.now)))) }
{
    let len = if is_absolute(path) {
        0
    } else {
        enter_all(work, 0, cwd)
    };
    enter_all(work, len, path)
}

// Copies the resolved path into the lent space, where it is not too long, and says how long it is; with no component it is the root.
fn hand_over(entered: &[u8], space: &mut [u8; MAX_PATH]) -> Result<usize, Refusal>
    ensures { Answers (rooted entered.now) (too_long (rooted entered.now)) space.old result space.new }
{
    let resolved = if entered.is_empty() { b"/" } else { entered };
    if resolved.len() > MAX_PATH {
        return Err(Refusal::ResolvedTooLong);
    }
    Ok(append(space, 0, resolved))
}

// Resolves a path given in a working directory into the lent space, from its start. Not inlined: calls with no path have no work area on their stack.
#[inline(never)]
pub fn resolve(path: &[u8], cwd: &[u8], space: &mut [u8; MAX_PATH]) -> Result<usize, Refusal>
    ensures { Resolves path.now cwd.now space.old result space.new }
{
    if path.is_empty() {
        return Err(Refusal::EmptyPath);
    }
    if path.len() > MAX_PATH {
        return Err(Refusal::PathTooLong);
    }
    if is_bad_directory(path, cwd) {
        return Err(Refusal::BadDirectory);
    }
    let mut work = [0u8; JOINED_BYTES];
    let len = enter_joined(&mut work, path, cwd);
    hand_over(&work[..len], space)
}
