// The calls check and request: the checking order, the decision, its act and its text. Scope, "A call comes in".
ghost use Rattle.std.specs.Prelude.{◌≡◌, true, length};
ghost use Rattle.paths.specs.Giving.{is_query, query_of};
ghost use Rattle.table.specs.Memory.{holds};
ghost use Rattle.link.specs.Sending.{lent};
ghost use Rattle.link.specs.Steps.{Ready};
ghost use Rattle.deciding.specs.Steps.{HasText};
ghost use Rattle.calls.specs.Calls.{Settles, about, Asks};
ghost use Rattle.calls.specs.Steps.{SettlesQuery, Finishes};

use crate::{Asked, Settled};
use deciding::decisions::decide;
use deciding::texts::write_text;
use deciding::{Call, PromptResponse, TEXT_BYTES};
use link::Link;
use link::linking::admit;
use link::performing::perform;
use paths::giving::resolve_given;
use paths::{Descriptor, MAX_PATH};
use refusals::Refusal;
use table::held::Table;
use table::holding::holds_table;

// Decides what is resolved, and carries the act out.
fn settle_query(
    mem: &mut [u8],
    link: Link,
    number: &mut u64,
    words: &mut [u32],
    at: usize,
    call: Call,
    d: Descriptor,
    resolved: &[u8],
    response: PromptResponse,
) -> Result<Settled, Refusal>
    requires mem_value { (holds mem.old ≡ true) × Ready link words.old at }
    requires resolved_value { is_query (query_of d resolved.now) ≡ true }
    ensures { SettlesQuery call link (lent mem.old number.old words.old) at (query_of d resolved.now) response (length resolved.now) (lent mem.new number.new words.new) result }
{
    let decided = decide(&Table::of(mem), call, d, resolved, response);
    let end = perform(mem, link, number, words, at, decided.action, resolved)?;
    Ok(Settled {
        state: decided.state,
        asked: decided.asked,
        writes: decided.writes,
        size: resolved.len(),
        words: end,
    })
}

// Decides what is given, and carries the act out. The resolved path then stands at the start of the space.
pub fn settle(
    mem: &mut [u8],
    link: Link,
    number: &mut u64,
    words: &mut [u32],
    at: usize,
    call: Call,
    d: Descriptor,
    path: &[u8],
    cwd: &[u8],
    response: PromptResponse,
    space: &mut [u8; MAX_PATH],
) -> Result<Settled, Refusal>
    requires { (holds mem.old ≡ true) × Ready link words.old at }
    ensures { Settles call link (lent mem.old number.old words.old) at d «path».now cwd.now response space.old (lent mem.new number.new words.new) space.new result }
{
    let size = resolve_given(d, path, cwd, space)?;
    settle_query(
        mem,
        link,
        number,
        words,
        at,
        call,
        d,
        &space[..size],
        response,
    )
}

// The answer of a call that is settled, with its text, if one is due.
pub fn finish<'a>(
    settled: Settled,
    d: Descriptor,
    given: &'a [u8],
    resolved: &'a [u8],
    space: &mut [u8],
) -> Asked
    requires { HasText d given.now resolved.now space.old }
    ensures { Finishes settled d given.now resolved.now space.old space.new result }
{
    let text = if settled.writes {
        write_text(space, d, given, resolved)
    } else {
        0
    };
    Asked {
        state: settled.state,
        asked: settled.asked,
        text,
        words: settled.words,
    }
}

// Checks or requests a path as given with the working directory, or reading as a whole. The text space gets the text where the operator is
// asked and where a check fails.
pub fn ask<'a>(
    mem: &mut [u8],
    link: Link,
    number: &mut u64,
    words: &mut [u32],
    call: Call,
    d: Descriptor,
    path: &'a [u8],
    cwd: &[u8],
    response: u32,
    space: &mut [u8],
) -> Result<Asked, Refusal>
    ensures { Asks call link (lent mem.old number.old words.old) space.old (about d «path».now cwd.now) response (lent mem.new number.new words.new) space.new result }
{
    if !holds_table(mem) {
        return Err(Refusal::NoTable);
    }
    if space.len() < TEXT_BYTES {
        return Err(Refusal::NoSpace);
    }
    admit(link, 1, words)?;
    let known = PromptResponse::try_from(response)?;
    let mut resolved = [0u8; MAX_PATH];
    let settled = settle(
        mem,
        link,
        number,
        words,
        0,
        call,
        d,
        path,
        cwd,
        known,
        &mut resolved,
    )?;
    Ok(finish(settled, d, path, &resolved[..settled.size], space))
}
