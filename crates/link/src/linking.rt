// The record space and the run number of a linked call. Scope, "A call comes in".
ghost use Rattle.std.specs.Prelude.{◌≡◌, ◌*◌, ltb};
ghost use Rattle.records.specs.Numbers.{record_space};
ghost use Rattle.link.specs.Linking.{at_least_one, lacks_room, lacks_run, admit};

use crate::Link;
use records::RECORD_WORDS;
use records::numbers::is_run;
use refusals::Refusal;

// Whether so many words are too few for the records of so many items.
#[tactic(auto, using(crate::proofs::LinkLaws::least_max))]
fn is_short(words: usize, items: usize) -> bool
    ensures { result ≡ ltb words (record_space * at_least_one items) }
{
    words / RECORD_WORDS < items.max(1)
}

// Whether a linked call of so many items has too few words for their records.
#[tactic(auto, unfolding(crate::specs::Linking::lacks_room))]
pub fn lacks_room(link: Link, items: usize, words: &[u32]) -> bool
    ensures { result ≡ lacks_room items link words.now }
{
    match link {
        Link::Plain => false,
        Link::Linked(_) => is_short(words.len(), items),
    }
}

// Whether a linked call is handed a number that is no run's.
#[tactic(auto, unfolding(crate::specs::Linking::lacks_run))]
pub fn lacks_run(link: Link) -> bool
    ensures { result ≡ lacks_run link }
{
    match link {
        Link::Plain => false,
        Link::Linked(run) => !is_run(run),
    }
}

// The link's tests of a call of so many items: its record space (2), then its run number (3).
#[tactic(auto, unfolding(crate::specs::Linking::admit, refusals::specs::Refusals::first_cause, refusals::specs::Refusals::unless))]
pub fn admit(link: Link, items: usize, words: &[u32]) -> Result<(), Refusal>
    ensures { result ≡ admit items link words.now }
{
    if lacks_room(link, items, words) {
        return Err(Refusal::NoSpace);
    }
    if lacks_run(link) {
        return Err(Refusal::Unknown);
    }
    Ok(())
}
