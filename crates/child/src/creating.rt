// The child call: the checking order, the child's first table, the items, and what the child takes over. Scope, "A call comes in".
ghost use Rattle.std.specs.Prelude.{◌≡◌, true};
ghost use Rattle.table.specs.Memory.{table_of, holds};
ghost use Rattle.link.specs.Sending.{lent};
ghost use Rattle.items.specs.Items.{items_in};
ghost use Rattle.child.specs.Making.{take_over};
ghost use Rattle.child.specs.Calls.{CreatesChild};
ghost use Rattle.child.specs.Steps.{after_items, Completes, Tests};

use crate::arguments::are_in_order;
use crate::granting::grant_all;
use crate::inheriting::{begin, take_over};
use crate::{ChildSent, ChildUnaryPermissionArg};
use items::{ItemList, are_responses};
use link::Link;
use link::linking::admit;
use refusals::Refusal;
use table::TABLE_BYTES;
use table::acting::make_fresh;
use table::holding::holds_table;

// The tests of a call, in their order, and the argument that its code names.
fn test_call(
    parent: &[u8],
    link: Link,
    child: &[u8],
    words: &[u32],
    code: u32,
    list: ItemList<'_>,
) -> Result<ChildUnaryPermissionArg, Refusal>
    ensures { Tests link parent.now words.now child.now code (items_in list.entry) result }
{
    if !holds_table(parent) || child.len() < TABLE_BYTES {
        return Err(Refusal::NoTable);
    }
    admit(link, list.ends.len(), words)?;
    let arg = ChildUnaryPermissionArg::try_from(code)?;
    if are_responses(list.responses) && are_in_order(arg, list) {
        Ok(arg)
    } else {
        Err(Refusal::Unknown)
    }
}

// Once the items are through: what the child takes over. After a refusal on the way the child is fresh.
fn complete(parent: &[u8], child: &mut [u8], items: Result<(), Refusal>) -> Result<(), Refusal>
    requires { (holds parent.now ≡ true) × (holds child.old ≡ true) }
    ensures { Completes (after_items items (take_over (table_of parent.now) (table_of child.old))) child.old child.new result }
{
    // not `and_then`: it does not say what a closure that is not called leaves of the child
    let outcome = match items {
        Ok(()) => take_over(parent, child),
        Err(cause) => Err(cause),
    };
    if outcome.is_err() {
        make_fresh(child).unwrap();
    }
    outcome
}

// Makes a child's table by its child code, in memory beside its parent's, and records what the parent's checks of the items ask; records of acts
// stand there also where the call is refused on the way.
pub fn create_child_permissions(
    parent: &mut [u8],
    link: Link,
    number: &mut u64,
    child: &mut [u8],
    words: &mut [u32],
    code: u32,
    list: ItemList<'_>,
    cwd: &[u8],
) -> ChildSent
    ensures { CreatesChild link (lent parent.old number.old words.old) child.old code (items_in list.entry) cwd.now (lent parent.new number.new words.new) child.new result }
{
    let arg = match test_call(parent, link, child, words, code, list) {
        Ok(arg) => arg,
        Err(cause) => return ChildSent::new(Err(cause), 0, 0),
    };
    begin(parent, child, arg);
    let sent = grant_all(parent, child, link, number, words, arg, list, cwd);
    let made = sent.made;
    ChildSent::new(
        complete(parent, child, made.outcome),
        made.asked,
        sent.words,
    )
}
