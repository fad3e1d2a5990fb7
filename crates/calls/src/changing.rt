// The calls that set switches and insert an entry, plain and linked. Each goes through its checking order first. Scope, "A call comes in".
ghost use Rattle.link.specs.Sending.{lent};
ghost use Rattle.calls.specs.Changes.{SetsSwitches, Inserts};

use link::Link;
use link::linking::admit;
use link::performing::perform;
use paths::giving::resolve_given;
use paths::{Descriptor, MAX_PATH};
use refusals::Refusal;
use table::holding::holds_table;
use table::{Action, Kind, MAX_SWITCHES};

// Sets the switches, all five together, and says how many words of the record space hold the record.
pub fn set_switches(
    mem: &mut [u8],
    link: Link,
    number: &mut u64,
    words: &mut [u32],
    switches: u32,
) -> Result<usize, Refusal>
    ensures { SetsSwitches link (lent mem.old number.old words.old) switches (lent mem.new number.new words.new) result }
{
    if !holds_table(mem) {
        return Err(Refusal::NoTable);
    }
    admit(link, 1, words)?;
    if switches > u32::from(MAX_SWITCHES) {
        return Err(Refusal::Unknown);
    }
    perform(
        mem,
        link,
        number,
        words,
        0,
        Action::SetSwitches(switches as u8),
        b"",
    )
}

// Inserts an entry of a kind, with its path as given and the working directory, and says how many words of the record space hold the record.
pub fn insert(
    mem: &mut [u8],
    link: Link,
    number: &mut u64,
    words: &mut [u32],
    kind: u32,
    path: &[u8],
    cwd: &[u8],
) -> Result<usize, Refusal>
    ensures { Inserts link (lent mem.old number.old words.old) kind «path».now cwd.now (lent mem.new number.new words.new) result }
{
    if !holds_table(mem) {
        return Err(Refusal::NoTable);
    }
    admit(link, 1, words)?;
    let known = Kind::try_from(kind)?;
    let mut space = [0u8; MAX_PATH];
    let size = resolve_given(Descriptor::Path, path, cwd, &mut space)?;
    perform(
        mem,
        link,
        number,
        words,
        0,
        Action::Insert(known),
        &space[..size],
    )
}
