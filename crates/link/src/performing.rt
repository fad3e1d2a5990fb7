// Carrying out the act of a call and, where it is linked, recording it. Scope, "A call comes in", and "Handover, at the top".
ghost use Rattle.std.specs.Prelude.{◌≡◌, true, List, ℕ, ◌<◌};
ghost use Rattle.table.specs.Memory.{holds};
ghost use Rattle.table.specs.Carrying.{act_of, fits};
ghost use Rattle.records.specs.Numbers.{max_number};
ghost use Rattle.link.specs.declared.Link.TheVariants.{Linked};
ghost use Rattle.link.specs.Sending.{lent};
ghost use Rattle.link.specs.Steps.{is_none, Ready, no_number, SendsAt, Performs};

use crate::Link;
use records::MAX_NUMBER;
use records::writing::write_record;
use refusals::Refusal;
use table::Action;
use table::carrying::carry_out;
use table::held::Table;

// Why an act is refused for which no number is left: an insert with no room comes first.
fn without_number(table: &Table<'_>, action: Action, q: &[u8]) -> Result<(), Refusal>
    ensures { result ≡ no_number table.now (act_of action q.now) }
{
    match action {
        Action::Nothing => Ok(()),
        Action::Insert(kind) => {
            if table.overflows(kind, q) {
                Err(Refusal::TableFull)
            } else {
                Err(Refusal::NumbersUsedUp)
            }
        }
        Action::SetSwitches(_) | Action::Revoke | Action::RevokeAll => Err(Refusal::NumbersUsedUp),
    }
}

// Raises the main's number by one and writes the record of an act of a run under it, from an offset of the record space on; with no act there is none. It tells where
// the record ends.
fn send_at(
    run: u32,
    number: &mut u64,
    words: &mut [u32],
    at: usize,
    action: Action,
    q: &[u8],
) -> usize
    requires ready { Ready (Linked run) words.old at }
    requires q_value { (fits (act_of action q.now) ≡ true) × (number.old < max_number) }
    ensures { SendsAt (act_of action q.now) run number.old words.old at number.new words.new result }
{
    if matches!(action, Action::Nothing) {
        return at;
    }
    *number += 1;
    write_record(words, at, run, *number, action, q)
}

// Carries an act out and records it. The number is looked at first, so that an insert searches once.
fn perform_linked(
    mem: &mut [u8],
    run: u32,
    number: &mut u64,
    words: &mut [u32],
    at: usize,
    action: Action,
    q: &[u8],
) -> Result<usize, Refusal>
    requires { (holds mem.old ≡ true) × (fits (act_of action q.now) ≡ true) × Ready (Linked run) words.old at }
    ensures { Performs (Linked run) (act_of action q.now) (lent mem.old number.old words.old) at (lent mem.new number.new words.new) result }
{
    if *number >= MAX_NUMBER {
        without_number(&Table::of(mem), action, q)?;
        return Ok(at);
    }
    carry_out(mem, action, q)?;
    Ok(send_at(run, number, words, at, action, q))
}

// Carries an act out and, where the call is linked, records it from an offset of the record space on; or it is refused by 8 or 9. It tells where the record ends.
// Link, number and words stay three parameters, here and above: a struct of the two `&mut` would need in each promise that it still holds the same ones.
pub fn perform(
    mem: &mut [u8],
    link: Link,
    number: &mut u64,
    words: &mut [u32],
    at: usize,
    action: Action,
    q: &[u8],
) -> Result<usize, Refusal>
    requires { (holds mem.old ≡ true) × (fits (act_of action q.now) ≡ true) × Ready link words.old at }
    ensures { Performs link (act_of action q.now) (lent mem.old number.old words.old) at (lent mem.new number.new words.new) result }
{
    match link {
        Link::Plain => {
            carry_out(mem, action, q)?;
            Ok(at)
        }
        Link::Linked(run) => perform_linked(mem, run, number, words, at, action, q),
    }
}
