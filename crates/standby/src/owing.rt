// What the standby is owed.
ghost use Rattle.standby.specs.Owing.{Owes};

use crate::Numbers;
use refusals::Refusal;

// How many changes are owed: those behind n up to h, the highest that was met; all of h, where it was met in a higher run than the standby's.
#[tactic(auto, unfolding(crate::specs::Arriving::conflict, crate::specs::Owing::owing, crate::specs::Owing::owed_of))]
pub fn owed(numbers: Numbers) -> Result<u64, Refusal>
    ensures { Owes numbers result }
{
    if numbers.in_conflict() {
        return Err(Refusal::NoTable);
    }
    if numbers.run != numbers.highest {
        return Ok(numbers.h);
    }
    Ok(numbers.h - numbers.n)
}
