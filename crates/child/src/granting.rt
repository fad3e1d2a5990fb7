// The items of a child call, one by one: the parent's check of each, its record where the call is linked, and what the child is granted. Scope, "A call comes in".
ghost use Rattle.std.specs.Prelude.{◌≡◌, true, length};
ghost use Rattle.paths.specs.Giving.{is_query, query_of};
ghost use Rattle.table.specs.Memory.{table_of, holds};
ghost use Rattle.link.specs.Sending.{lent};
ghost use Rattle.link.specs.Steps.{Admits, Ready};
ghost use Rattle.deciding.specs.declared.PromptResponse.{PromptResponse};
ghost use Rattle.items.specs.Items.{list_items};
ghost use Rattle.items.specs.Steps.{are_responses, Listed};
ghost use Rattle.child.specs.Arguments.{items_of, are_in_order};
ghost use Rattle.child.specs.Making.{passed_on};
ghost use Rattle.child.specs.Steps.{MakesChild, SendsItem, SendsItems};

use crate::{ChildSent, ChildUnaryPermissionArg};
use calls::asking::settle;
use deciding::decisions::grant_action;
use deciding::{Call, PromptResponse};
use items::{ItemList, response_at};
use link::Link;
use paths::{Descriptor, MAX_PATH};
use refusals::Refusal;
use table::carrying::carry_out;
use table::held::Table;
use walk::PermissionState;

// What the child is granted if the parent's check passes: a path, or with none switch 1.
fn pass_on(child: &mut [u8], state: PermissionState, d: Descriptor, q: &[u8]) -> Result<(), Refusal>
    requires child_value { holds child.old ≡ true }
    requires q_value { is_query (query_of d q.now) ≡ true }
    ensures { MakesChild (passed_on state (query_of d q.now) (table_of child.old)) child.old child.new result }
{
    if state != PermissionState::Granted {
        return Err(Refusal::Escalation);
    }
    let action = grant_action(&Table::of(child), d);
    carry_out(child, action, q)
}

// One item, as given with the working directory, or with no path; its record stands from `at` on. Not inlined: an inherited child has no path on its stack.
#[inline(never)]
fn grant_item(
    parent: &mut [u8],
    child: &mut [u8],
    link: Link,
    number: &mut u64,
    words: &mut [u32],
    at: usize,
    d: Descriptor,
    given: &[u8],
    cwd: &[u8],
    response: PromptResponse,
) -> ChildSent
    requires { (holds parent.old ≡ true) × (holds child.old ≡ true) × Ready link words.old at }
    ensures { SendsItem cwd.now (record { descriptor = d; given = given.now; response = response }) link (lent parent.old number.old words.old) child.old at (lent parent.new number.new words.new) child.new result }
{
    let mut resolved = [0u8; MAX_PATH];
    match settle(
        parent,
        link,
        number,
        words,
        at,
        Call::Check,
        d,
        given,
        cwd,
        response,
        &mut resolved,
    ) {
        Err(cause) => ChildSent::new(Err(cause), 0, at),
        Ok(settled) => ChildSent::new(
            pass_on(child, settled.state, d, &resolved[..settled.size]),
            usize::from(settled.asked),
            settled.words,
        ),
    }
}

// The items of a list, one by one, until one is refused; their records stand from the record space's start, one after the other.
fn grant_items(
    parent: &mut [u8],
    child: &mut [u8],
    link: Link,
    number: &mut u64,
    words: &mut [u32],
    list: ItemList<'_>,
    cwd: &[u8],
) -> ChildSent
    requires { (holds parent.old ≡ true) × (holds child.old ≡ true) × Listed list.bytes.now list.ends.now list.responses.now × Admits (length list.ends.now) link words.old }
    ensures { SendsItems cwd.now (list_items list.entry.bytes.now 0 list.entry.ends.now) list.entry.responses.now link (lent parent.old number.old words.old) child.old (lent parent.new number.new words.new) child.new result }
{
    let mut asked = 0;
    let mut at = 0;
    let mut from = 0;
    for (i, end) in list.ends.iter().enumerate() {
        let end = *end as usize;
        let sent = grant_item(
            parent,
            child,
            link,
            number,
            words,
            at,
            Descriptor::Path,
            &list.bytes[from..end],
            cwd,
            response_at(list.responses, i),
        );
        at = sent.words;
        asked += sent.made.asked;
        if let Err(cause) = sent.made.outcome {
            return ChildSent::new(Err(cause), asked, at);
        }
        from = end;
    }
    ChildSent::new(Ok(()), asked, at)
}

// The items of any argument.
pub(crate) fn grant_all(
    parent: &mut [u8],
    child: &mut [u8],
    link: Link,
    number: &mut u64,
    words: &mut [u32],
    arg: ChildUnaryPermissionArg,
    list: ItemList<'_>,
    cwd: &[u8],
) -> ChildSent
    requires parent_value { (holds parent.old ≡ true) × (holds child.old ≡ true) }
    requires responses_value { (are_responses list.responses.now ≡ true) × (are_in_order arg list.bytes.now list.ends.now list.responses.now ≡ true) }
    requires admits { Admits (length list.ends.now) link words.old }
    ensures { SendsItems cwd.now (items_of arg list.entry.bytes.now list.entry.ends.now) list.entry.responses.now link (lent parent.old number.old words.old) child.old (lent parent.new number.new words.new) child.new result }
{
    match arg {
        ChildUnaryPermissionArg::Inherit | ChildUnaryPermissionArg::NotGranted => {
            ChildSent::new(Ok(()), 0, 0)
        }
        ChildUnaryPermissionArg::Granted => grant_item(
            parent,
            child,
            link,
            number,
            words,
            0,
            Descriptor::NoPath,
            b"",
            cwd,
            response_at(list.responses, 0),
        ),
        ChildUnaryPermissionArg::GrantedList => grant_items(
            parent, child, link, number, words, list, cwd,
        ),
    }
}
