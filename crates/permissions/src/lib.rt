// The calls for the controller's C program: numbers and byte slices, over a table in lent memory. permissions.h documents them for C.
// A negative result −n is refusal n of the scope. Where a call answers more than one number, the others go to lent numbers, which are always
// written.
#![tactic(auto)]

ghost use Rattle.std.specs.Prelude.{[]};
ghost use Rattle.paths.specs.declared.Descriptor.TheVariants.{NoPath, Path};
ghost use Rattle.deciding.specs.declared.Call.TheVariants.{Check, Request};
ghost use Rattle.link.specs.declared.Link.TheVariants.{Plain};
ghost use Rattle.link.specs.Sending.{lent, alone};
ghost use Rattle.items.specs.Items.{item_list};
ghost use Rattle.calls.specs.Calls.{about, Asks, Revokes};
ghost use Rattle.calls.specs.Changes.{SetsSwitches, Inserts};
ghost use Rattle.child.specs.Calls.{CreatesChild};
ghost use Rattle.results.specs.Exports.{
  ExportedFresh,
  ExportedSent,
  ExportedQuery,
  ExportedAsk,
  ExportedQuestion,
  ExportedRevoke,
  ExportedChild,
  ExportedUsed,
  ExportedHead,
  ExportedEntry,
};

use calls::changing;
use deciding::Call;
use items::ItemList;
use link::Link;
use paths::Descriptor;
use results::calling::{asked_plainly, asks, created, revoked_plainly};
use results::numbers::{answer_number, outcome_number, refused, tell_listed};
use table::held::Table;
use table::{acting, listing};
use walk::querying::query;

pub mod arriving;
pub mod comparing;
pub mod linking;
pub mod without_path;

// ---- a table

// Writes a fresh table into memory.
#[unsafe(no_mangle)]
pub extern "C" fn permissions_fresh(mem: &mut [u8]) -> i32
    ensures { ExportedFresh mem.old mem.new result }
{
    outcome_number(acting::make_fresh(mem))
}

// Inserts an entry of a kind.
#[unsafe(no_mangle)]
pub extern "C" fn permissions_insert(mem: &mut [u8], kind: u32, path: &[u8], cwd: &[u8]) -> i32
    ensures { ExportedSent (Inserts Plain (alone mem.old) kind «path».now cwd.now (alone mem.new)) 0 result }
{
    let sent = changing::insert(mem, Link::Plain, &mut 0, &mut [], kind, path, cwd);
    outcome_number(sent)
}

// Sets the switches, all five together.
#[unsafe(no_mangle)]
pub extern "C" fn permissions_switches(mem: &mut [u8], switches: u32) -> i32
    ensures { ExportedSent (SetsSwitches Plain (alone mem.old) switches (alone mem.new)) 0 result }
{
    let sent = changing::set_switches(mem, Link::Plain, &mut 0, &mut [], switches);
    outcome_number(sent)
}

// ---- query

// What a path has for an answer in a mode.
#[unsafe(no_mangle)]
pub extern "C" fn permissions_query(mem: &[u8], mode: u32, path: &[u8], cwd: &[u8]) -> i32
    ensures { ExportedQuery mem.now mode Path path.now cwd.now result }
{
    answer_number(query(mem, mode, Descriptor::Path, path, cwd))
}

// What the call with no path has for an answer in a mode.
#[unsafe(no_mangle)]
pub extern "C" fn permissions_query_all(mem: &[u8], mode: u32) -> i32
    ensures { ExportedQuery mem.now mode NoPath [] [] result }
{
    answer_number(query(mem, mode, Descriptor::NoPath, b"", b""))
}

// ---- check and request

// Checks a path. The text space gets the text where the operator is asked and where the check fails.
#[unsafe(no_mangle)]
pub extern "C" fn permissions_check(
    mem: &mut [u8],
    path: &[u8],
    cwd: &[u8],
    response: u32,
    space: &mut [u8],
    told: &mut u32,
    size: &mut usize,
) -> i32
    ensures { ExportedAsk (Asks Check Plain (alone mem.old) space.old (about Path «path».now cwd.now) response (alone mem.new) space.new) told.new size.new 0 result }
{
    asked_plainly(
        mem,
        Call::Check,
        Descriptor::Path,
        path,
        cwd,
        response,
        space,
        told,
        size,
    )
}

// Checks reading as a whole, with no path.
#[unsafe(no_mangle)]
pub extern "C" fn permissions_check_all(
    mem: &mut [u8],
    response: u32,
    space: &mut [u8],
    told: &mut u32,
    size: &mut usize,
) -> i32
    ensures { ExportedAsk (Asks Check Plain (alone mem.old) space.old (about NoPath [] []) response (alone mem.new) space.new) told.new size.new 0 result }
{
    asked_plainly(
        mem,
        Call::Check,
        Descriptor::NoPath,
        b"",
        b"",
        response,
        space,
        told,
        size,
    )
}

// Requests a path. The text space gets the text where the operator is asked.
#[unsafe(no_mangle)]
pub extern "C" fn permissions_request(
    mem: &mut [u8],
    path: &[u8],
    cwd: &[u8],
    response: u32,
    space: &mut [u8],
    told: &mut u32,
    size: &mut usize,
) -> i32
    ensures { ExportedAsk (Asks Request Plain (alone mem.old) space.old (about Path «path».now cwd.now) response (alone mem.new) space.new) told.new size.new 0 result }
{
    asked_plainly(
        mem,
        Call::Request,
        Descriptor::Path,
        path,
        cwd,
        response,
        space,
        told,
        size,
    )
}

// Requests reading as a whole, with no path.
#[unsafe(no_mangle)]
pub extern "C" fn permissions_request_all(
    mem: &mut [u8],
    response: u32,
    space: &mut [u8],
    told: &mut u32,
    size: &mut usize,
) -> i32
    ensures { ExportedAsk (Asks Request Plain (alone mem.old) space.old (about NoPath [] []) response (alone mem.new) space.new) told.new size.new 0 result }
{
    asked_plainly(
        mem,
        Call::Request,
        Descriptor::NoPath,
        b"",
        b"",
        response,
        space,
        told,
        size,
    )
}

// ---- what a check or request would ask

// Whether a check of a path would ask, and with which text.
#[unsafe(no_mangle)]
pub extern "C" fn permissions_check_asks(
    mem: &[u8],
    path: &[u8],
    cwd: &[u8],
    space: &mut [u8],
    size: &mut usize,
) -> i32
    ensures { ExportedQuestion Check mem.now space.old Path path.now cwd.now space.new size.new result }
{
    asks(mem, Call::Check, Descriptor::Path, path, cwd, space, size)
}

// Whether a check of reading as a whole would ask.
#[unsafe(no_mangle)]
pub extern "C" fn permissions_check_all_asks(mem: &[u8], space: &mut [u8], size: &mut usize) -> i32
    ensures { ExportedQuestion Check mem.now space.old NoPath [] [] space.new size.new result }
{
    asks(mem, Call::Check, Descriptor::NoPath, b"", b"", space, size)
}

// Whether a request of a path would ask, and with which text.
#[unsafe(no_mangle)]
pub extern "C" fn permissions_request_asks(
    mem: &[u8],
    path: &[u8],
    cwd: &[u8],
    space: &mut [u8],
    size: &mut usize,
) -> i32
    ensures { ExportedQuestion Request mem.now space.old Path path.now cwd.now space.new size.new result }
{
    asks(mem, Call::Request, Descriptor::Path, path, cwd, space, size)
}

// Whether a request of reading as a whole would ask.
#[unsafe(no_mangle)]
pub extern "C" fn permissions_request_all_asks(
    mem: &[u8],
    space: &mut [u8],
    size: &mut usize,
) -> i32
    ensures { ExportedQuestion Request mem.now space.old NoPath [] [] space.new size.new result }
{
    asks(
        mem,
        Call::Request,
        Descriptor::NoPath,
        b"",
        b"",
        space,
        size,
    )
}

// ---- revoke and child

// Revokes a path, and says what a query in mode partial then answers.
#[unsafe(no_mangle)]
pub extern "C" fn permissions_revoke(mem: &mut [u8], path: &[u8], cwd: &[u8]) -> i32
    ensures { ExportedRevoke (Revokes Plain (alone mem.old) (about Path «path».now cwd.now) (alone mem.new)) 0 result }
{
    revoked_plainly(mem, Descriptor::Path, path, cwd)
}

// Revokes all.
#[unsafe(no_mangle)]
pub extern "C" fn permissions_revoke_all(mem: &mut [u8]) -> i32
    ensures { ExportedRevoke (Revokes Plain (alone mem.old) (about NoPath [] []) (alone mem.new)) 0 result }
{
    revoked_plainly(mem, Descriptor::NoPath, b"", b"")
}

// Makes a child's table. How often the operator was asked goes to `told`.
#[unsafe(no_mangle)]
pub extern "C" fn permissions_child(
    parent: &mut [u8],
    child: &mut [u8],
    code: u32,
    bytes: &[u8],
    ends: &[u32],
    responses: &[u32],
    cwd: &[u8],
    told: &mut u32,
) -> i32
    ensures { ExportedChild (CreatesChild Plain (alone parent.old) child.old code (item_list bytes.now ends.now responses.now) cwd.now (alone parent.new) child.new) told.new 0 result }
{
    created(
        parent,
        Link::Plain,
        &mut 0,
        child,
        &mut [],
        code,
        ItemList {
            bytes,
            ends,
            responses,
        },
        cwd,
        told,
        &mut 0,
    )
}

// ---- reading a table

// How many bytes a table takes, from the memory's start.
#[unsafe(no_mangle)]
pub extern "C" fn permissions_used(mem: &[u8]) -> i32
    ensures { ExportedUsed mem.now result }
{
    Table::try_from(mem).map_or_else(refused, |table| table.used() as i32)
}

// How many entries a table has, its switches and its marks.
#[unsafe(no_mangle)]
pub extern "C" fn permissions_head(
    mem: &[u8],
    count: &mut u32,
    switches: &mut u32,
    marks: &mut u32,
) -> i32
    ensures { ExportedHead mem.now count.new switches.new marks.new result }
{
    match Table::try_from(mem) {
        Ok(table) => {
            *count = table.count() as u32;
            *switches = u32::from(table.switches());
            *marks = u32::from(table.marks());
            0
        }
        Err(cause) => {
            *count = 0;
            *switches = 0;
            *marks = 0;
            refused(cause)
        }
    }
}

// The entry at a place of the list: its kind, where its path stands in the memory, and how many bytes the path has.
#[unsafe(no_mangle)]
pub extern "C" fn permissions_entry(
    mem: &[u8],
    place: u32,
    kind: &mut u32,
    at: &mut usize,
    size: &mut usize,
) -> i32
    ensures { ExportedEntry mem.now place kind.new at.new size.new result }
{
    match Table::try_from(mem) {
        Ok(_) => tell_listed(listing::entry_at(mem, place as usize), kind, at, size),
        Err(cause) => {
            tell_listed(None, kind, at, size);
            refused(cause)
        }
    }
}
