// The call revoke: the checking order, the act, and the query after it. Scope, "A call comes in".
ghost use Rattle.std.specs.Prelude.{◌≡◌, true};
ghost use Rattle.paths.specs.Giving.{is_query, query_of};
ghost use Rattle.table.specs.Memory.{holds};
ghost use Rattle.link.specs.Sending.{lent};
ghost use Rattle.link.specs.Steps.{Ready};
ghost use Rattle.calls.specs.Calls.{about, Revokes};
ghost use Rattle.calls.specs.Steps.{RevokesQuery};

use crate::Revoked;
use deciding::decisions::revoke_action;
use link::Link;
use link::linking::admit;
use link::performing::perform;
use paths::giving::resolve_given;
use paths::{Descriptor, MAX_PATH};
use refusals::Refusal;
use table::held::Table;
use table::holding::holds_table;
use walk::AllowPartial;
use walk::walking::query_desc;

// A revoke of what is resolved, and what a query in mode partial then answers.
fn revoke_query(
    mem: &mut [u8],
    link: Link,
    number: &mut u64,
    words: &mut [u32],
    d: Descriptor,
    q: &[u8],
) -> Result<Revoked, Refusal>
    requires { (holds mem.old ≡ true) × Ready link words.old 0 × (is_query (query_of d q.now) ≡ true) }
    ensures { RevokesQuery link (query_of d q.now) (lent mem.old number.old words.old) (lent mem.new number.new words.new) result }
{
    let end = perform(mem, link, number, words, 0, revoke_action(d), q)?;
    Ok(Revoked {
        state: query_desc(&Table::of(mem), AllowPartial::TreatAsPartialGranted, d, q),
        words: end,
    })
}

// Revokes a path as given with the working directory, or all, and says what a query in mode partial then answers.
pub fn revoke(
    mem: &mut [u8],
    link: Link,
    number: &mut u64,
    words: &mut [u32],
    d: Descriptor,
    path: &[u8],
    cwd: &[u8],
) -> Result<Revoked, Refusal>
    ensures { Revokes link (lent mem.old number.old words.old) (about d «path».now cwd.now) (lent mem.new number.new words.new) result }
{
    if !holds_table(mem) {
        return Err(Refusal::NoTable);
    }
    admit(link, 1, words)?;
    let mut space = [0u8; MAX_PATH];
    let size = resolve_given(d, path, cwd, &mut space)?;
    revoke_query(mem, link, number, words, d, &space[..size])
}
