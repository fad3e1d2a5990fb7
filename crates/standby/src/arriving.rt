// The arrival of a record at the standby.
ghost use Rattle.std.specs.Prelude.{◌≡◌, true};
ghost use Rattle.table.specs.Memory.{holds};
ghost use Rattle.table.specs.Carrying.{act_of, fits};
ghost use Rattle.standby.specs.Arriving.{numbers_in, arrival_in, Arrives};
ghost use Rattle.standby.specs.Steps.{Moves, Takes};

use crate::{Arrival, Arrived, Numbers};
use paths::MAX_PATH;
use records::Record;
use records::reading::read_record;
use refusals::Refusal;
use table::acting::make_fresh;
use table::carrying::carry_out;
use table::holding::holds_table;

// A change of a higher run: change 1 clears the table and is applied there, where every act finds room; any other is early.
fn take_higher(mem: &mut [u8], numbers: Numbers, record: Record, q: &[u8]) -> Arrived
    requires { (holds mem.old ≡ true) × (fits (act_of record.action q.now) ≡ true) }
    ensures { Moves record.run record.number (act_of record.action q.now) mem.old numbers mem.new result }
{
    if record.number != 1 {
        return Arrived {
            arrival: Arrival::Early,
            numbers,
        };
    }
    make_fresh(mem).unwrap();
    carry_out(mem, record.action, q).unwrap();
    Arrived {
        arrival: Arrival::Applied,
        numbers: Numbers {
            n: 1,
            run: record.run,
            ..numbers
        },
    }
}

// A change that was read, by its run: a lower one is a repeat. In the standby's run n or below is a repeat, above n + 1 is early, and n + 1 is applied unless
// its act finds no room.
fn take_change(
    mem: &mut [u8],
    numbers: Numbers,
    record: Record,
    q: &[u8],
) -> Result<Arrived, Refusal>
    requires { (holds mem.old ≡ true) × (fits (act_of record.action q.now) ≡ true) }
    ensures { Takes record.run record.number (act_of record.action q.now) mem.old numbers mem.new result }
{
    let Record {
        run,
        number,
        action,
        ..
    } = record;
    let after = numbers.meet(run, number);
    if run < after.run {
        return Ok(Arrived {
            arrival: Arrival::Repeat,
            numbers: after,
        });
    }
    if after.run < run {
        return Ok(take_higher(mem, after, record, q));
    }
    if number <= after.n {
        return Ok(Arrived {
            arrival: Arrival::Repeat,
            numbers: after,
        });
    }
    if number > after.n + 1 {
        return Ok(Arrived {
            arrival: Arrival::Early,
            numbers: after,
        });
    }
    carry_out(mem, action, q)?;
    Ok(Arrived {
        arrival: Arrival::Applied,
        numbers: Numbers { n: number, ..after },
    })
}

// Takes the record that the lent words are. The numbers come and go by value.
pub fn take_record(mem: &mut [u8], words: &[u32], numbers: Numbers) -> Result<Arrived, Refusal>
    ensures { Arrives mem.old words.now numbers mem.new (numbers_in numbers result) (arrival_in result) }
{
    if !holds_table(mem) || numbers.in_conflict() {
        return Err(Refusal::NoTable);
    }
    let mut space = [0u8; MAX_PATH];
    let record = read_record(words, 0, &mut space).ok_or(Refusal::MalformedRecord)?;
    if record.end != words.len() {
        return Err(Refusal::MalformedRecord);
    }
    take_change(mem, numbers, record, &space[..record.size])
}

// An arrival: the lent numbers are taken out, and what they are after it is put back. A refused one leaves them.
pub fn arrive(mem: &mut [u8], words: &[u32], numbers: &mut Numbers) -> Result<Arrival, Refusal>
    ensures { Arrives mem.old words.now numbers.old mem.new numbers.new result }
{
    let arrived = take_record(mem, words, *numbers)?;
    *numbers = arrived.numbers;
    Ok(arrived.arrival)
}
