// The main's half of the link, for C: the beginning of a run; each call that changes a table, handed the run number, with the main's number and the record
// space lent beside it, where how many words hold records goes to `count`, which every call writes; and the main's whole table as one image.
ghost use Rattle.std.specs.Prelude.{[]};
ghost use Rattle.paths.specs.declared.Descriptor.TheVariants.{NoPath, Path};
ghost use Rattle.deciding.specs.declared.Call.TheVariants.{Check, Request};
ghost use Rattle.link.specs.declared.Link.TheVariants.{Linked};
ghost use Rattle.link.specs.Sending.{lent};
ghost use Rattle.items.specs.Items.{item_list};
ghost use Rattle.calls.specs.Calls.{about, Asks, Revokes};
ghost use Rattle.calls.specs.Changes.{SetsSwitches, Inserts};
ghost use Rattle.child.specs.Calls.{CreatesChild};
ghost use Rattle.results.specs.Exports.{ExportedBegin, ExportedSent, ExportedAsk, ExportedRevoke, ExportedChild, ExportedImage};

use calls::changing;
use deciding::Call;
use items::ItemList;
use link::beginning::begin_run;
use link::{Link, imaging};
use paths::Descriptor;
use results::calling::{asked, created, revoked};
use results::numbers::outcome_number;

// ---- a run

// Begins a run: a fresh table, and the number 0.
#[unsafe(no_mangle)]
pub extern "C" fn permissions_begin_run(mem: &mut [u8], run: u32, number: &mut u64) -> i32
    ensures { ExportedBegin mem.old run number.old mem.new number.new result }
{
    outcome_number(begin_run(mem, run, number))
}

// ---- insert and switches

// Inserts an entry of a kind, and records it.
#[unsafe(no_mangle)]
pub extern "C" fn permissions_linked_insert(
    mem: &mut [u8],
    run: u32,
    number: &mut u64,
    kind: u32,
    path: &[u8],
    cwd: &[u8],
    words: &mut [u32],
    count: &mut usize,
) -> i32
    ensures { ExportedSent (Inserts (Linked run) (lent mem.old number.old words.old) kind «path».now cwd.now (lent mem.new number.new words.new)) count.new result }
{
    let sent = changing::insert(mem, Link::Linked(run), number, words, kind, path, cwd);
    *count = sent.unwrap_or(0);
    outcome_number(sent)
}

// Sets the switches, all five together, and records it.
#[unsafe(no_mangle)]
pub extern "C" fn permissions_linked_switches(
    mem: &mut [u8],
    run: u32,
    number: &mut u64,
    switches: u32,
    words: &mut [u32],
    count: &mut usize,
) -> i32
    ensures { ExportedSent (SetsSwitches (Linked run) (lent mem.old number.old words.old) switches (lent mem.new number.new words.new)) count.new result }
{
    let sent = changing::set_switches(mem, Link::Linked(run), number, words, switches);
    *count = sent.unwrap_or(0);
    outcome_number(sent)
}

// ---- check and request

// Checks a path, and records what the operator's answer inserts or sets.
#[unsafe(no_mangle)]
pub extern "C" fn permissions_linked_check(
    mem: &mut [u8],
    run: u32,
    number: &mut u64,
    path: &[u8],
    cwd: &[u8],
    response: u32,
    space: &mut [u8],
    words: &mut [u32],
    told: &mut u32,
    size: &mut usize,
    count: &mut usize,
) -> i32
    ensures { ExportedAsk (Asks Check (Linked run) (lent mem.old number.old words.old) space.old (about Path «path».now cwd.now) response (lent mem.new number.new words.new) space.new) told.new size.new count.new result }
{
    asked(
        mem,
        Link::Linked(run),
        number,
        words,
        Call::Check,
        Descriptor::Path,
        path,
        cwd,
        response,
        space,
        told,
        size,
        count,
    )
}

// Checks reading as a whole, with no path.
#[unsafe(no_mangle)]
pub extern "C" fn permissions_linked_check_all(
    mem: &mut [u8],
    run: u32,
    number: &mut u64,
    response: u32,
    space: &mut [u8],
    words: &mut [u32],
    told: &mut u32,
    size: &mut usize,
    count: &mut usize,
) -> i32
    ensures { ExportedAsk (Asks Check (Linked run) (lent mem.old number.old words.old) space.old (about NoPath [] []) response (lent mem.new number.new words.new) space.new) told.new size.new count.new result }
{
    asked(
        mem,
        Link::Linked(run),
        number,
        words,
        Call::Check,
        Descriptor::NoPath,
        b"",
        b"",
        response,
        space,
        told,
        size,
        count,
    )
}

// Requests a path, and records what is inserted or set.
#[unsafe(no_mangle)]
pub extern "C" fn permissions_linked_request(
    mem: &mut [u8],
    run: u32,
    number: &mut u64,
    path: &[u8],
    cwd: &[u8],
    response: u32,
    space: &mut [u8],
    words: &mut [u32],
    told: &mut u32,
    size: &mut usize,
    count: &mut usize,
) -> i32
    ensures { ExportedAsk (Asks Request (Linked run) (lent mem.old number.old words.old) space.old (about Path «path».now cwd.now) response (lent mem.new number.new words.new) space.new) told.new size.new count.new result }
{
    asked(
        mem,
        Link::Linked(run),
        number,
        words,
        Call::Request,
        Descriptor::Path,
        path,
        cwd,
        response,
        space,
        told,
        size,
        count,
    )
}

// Requests reading as a whole, with no path.
#[unsafe(no_mangle)]
pub extern "C" fn permissions_linked_request_all(
    mem: &mut [u8],
    run: u32,
    number: &mut u64,
    response: u32,
    space: &mut [u8],
    words: &mut [u32],
    told: &mut u32,
    size: &mut usize,
    count: &mut usize,
) -> i32
    ensures { ExportedAsk (Asks Request (Linked run) (lent mem.old number.old words.old) space.old (about NoPath [] []) response (lent mem.new number.new words.new) space.new) told.new size.new count.new result }
{
    asked(
        mem,
        Link::Linked(run),
        number,
        words,
        Call::Request,
        Descriptor::NoPath,
        b"",
        b"",
        response,
        space,
        told,
        size,
        count,
    )
}

// ---- revoke and child

// Revokes a path, records it, and says what a query in mode partial then answers.
#[unsafe(no_mangle)]
pub extern "C" fn permissions_linked_revoke(
    mem: &mut [u8],
    run: u32,
    number: &mut u64,
    path: &[u8],
    cwd: &[u8],
    words: &mut [u32],
    count: &mut usize,
) -> i32
    ensures { ExportedRevoke (Revokes (Linked run) (lent mem.old number.old words.old) (about Path «path».now cwd.now) (lent mem.new number.new words.new)) count.new result }
{
    revoked(
        mem,
        Link::Linked(run),
        number,
        words,
        Descriptor::Path,
        path,
        cwd,
        count,
    )
}

// Revokes all, and records it.
#[unsafe(no_mangle)]
pub extern "C" fn permissions_linked_revoke_all(
    mem: &mut [u8],
    run: u32,
    number: &mut u64,
    words: &mut [u32],
    count: &mut usize,
) -> i32
    ensures { ExportedRevoke (Revokes (Linked run) (lent mem.old number.old words.old) (about NoPath [] []) (lent mem.new number.new words.new)) count.new result }
{
    revoked(
        mem,
        Link::Linked(run),
        number,
        words,
        Descriptor::NoPath,
        b"",
        b"",
        count,
    )
}

// Makes a child's table, and records what the parent's checks of the items insert or set, also where the call is refused on the way. How often the
// operator was asked goes to `told`.
#[unsafe(no_mangle)]
pub extern "C" fn permissions_linked_child(
    parent: &mut [u8],
    run: u32,
    number: &mut u64,
    child: &mut [u8],
    code: u32,
    bytes: &[u8],
    ends: &[u32],
    responses: &[u32],
    cwd: &[u8],
    words: &mut [u32],
    told: &mut u32,
    count: &mut usize,
) -> i32
    ensures { ExportedChild (CreatesChild (Linked run) (lent parent.old number.old words.old) child.old code (item_list bytes.now ends.now responses.now) cwd.now (lent parent.new number.new words.new) child.new) told.new count.new result }
{
    created(
        parent,
        Link::Linked(run),
        number,
        child,
        words,
        code,
        ItemList {
            bytes,
            ends,
            responses,
        },
        cwd,
        told,
        count,
    )
}

// ---- an image

// Writes the image of the table, with the main's run and number. How many words it takes goes to `count`, also where there is no room for them.
#[unsafe(no_mangle)]
pub extern "C" fn permissions_linked_image(
    mem: &[u8],
    run: u32,
    number: u64,
    words: &mut [u32],
    count: &mut usize,
) -> i32
    ensures { ExportedImage mem.now run number words.old words.new count.new result }
{
    let sent = imaging::write_image(mem, run, number, words);
    *count = sent.words;
    outcome_number(sent.outcome)
}
