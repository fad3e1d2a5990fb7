// The arrival of an image at the standby.
ghost use Rattle.std.specs.Prelude.{◌≡◌};
ghost use Rattle.standby.specs.Arriving.{numbers_in, arrival_in};
ghost use Rattle.standby.specs.Loading.{is_taken, Loads};

use crate::{Arrival, Arrived, Numbers};
use images::loading::load_table;
use images::reading::read_image;
use refusals::Refusal;
use table::holding::holds_table;

// Whether an image is taken: one of a higher run is, and one of the standby's run where n is below its number.
#[tactic(auto, unfolding(crate::specs::Loading::is_taken))]
fn is_taken(numbers: Numbers, run: u32, number: u64) -> bool
    ensures { result ≡ is_taken numbers run number }
{
    numbers.run < run || numbers.run == run && numbers.n < number
}

// Takes the table, the run and the number of the image that the lent words are, unless it is a repeat. The numbers come and go by value.
pub fn take_image(mem: &mut [u8], words: &[u32], numbers: Numbers) -> Result<Arrived, Refusal>
    ensures { Loads mem.old words.now numbers mem.new (numbers_in numbers result) (arrival_in result) }
{
    if !holds_table(mem) || numbers.in_conflict() {
        return Err(Refusal::NoTable);
    }
    let image = read_image(words).ok_or(Refusal::MalformedImage)?;
    let after = numbers.meet(image.run, image.number);
    if !is_taken(after, image.run, image.number) {
        return Ok(Arrived {
            arrival: Arrival::Repeat,
            numbers: after,
        });
    }
    load_table(words, image, mem);
    Ok(Arrived {
        arrival: Arrival::Taken,
        numbers: Numbers {
            n: image.number,
            run: image.run,
            ..after
        },
    })
}

// An image arrives: the lent numbers are taken out, and what they are after it is put back. A refused one leaves them.
pub fn load(mem: &mut [u8], words: &[u32], numbers: &mut Numbers) -> Result<Arrival, Refusal>
    ensures { Loads mem.old words.now numbers.old mem.new numbers.new result }
{
    let arrived = take_image(mem, words, *numbers)?;
    *numbers = arrived.numbers;
    Ok(arrived.arrival)
}
