// Reading records into a standby: word after word, record after record.
ghost use Rattle.std.specs.Prelude.{◌≡◌, true, ◌+◌, ◌*◌, ◌<◌, ◌≤◌, ◌^◌, length};
ghost use Rattle.standby.specs.Arriving.{arrival};
ghost use Rattle.holdlist.specs.Holding.{held_arrived, after_arrival, after_next, held_from, beginning, held_on, standing, Holds};

use crate::Held;
use input::words::take_words;
use paths::MAX_PATH;
use records::RECORD_WORDS;
use records::reading::read_record;
use refusals::Refusal;
use standby::arriving::arrive;
use standby::{Arrival, Numbers};

// Reading stops where it is.
fn stop(held: Held) -> Held
    ensures { result ≡ (record { numbers = held.numbers; words = held.words; stopped = true }) }
{
    Held {
        stopped: true,
        ..held
    }
}

// What is held after an arrival of `count` words: one that is refused ends reading.
#[tactic(auto, unfolding(crate::specs::Holding::held_arrived))]
fn hold_arrived(
    held: Held,
    count: usize,
    numbers: Numbers,
    answer: Result<Arrival, Refusal>,
) -> Held
    requires { held.words + count < 2 ^ 64 }
    ensures { result ≡ held_arrived held count numbers answer }
{
    match answer {
        Ok(_) => Held {
            numbers,
            words: held.words + count,
            stopped: false,
        },
        Err(_) => stop(held),
    }
}

// The record that the words are arrives at the numbers held, which are lent for it.
fn hold_record(mem: &mut [u8], held: Held, words: &[u32]) -> Held
    requires { held.words + length words.now < 2 ^ 64 }
    ensures { Holds (after_arrival (arrival mem.old words.now held.numbers) (length words.now) (standing mem.old held)) mem.new result }
{
    let mut numbers = held.numbers;
    let answer = arrive(mem, words, &mut numbers);
    hold_arrived(held, words.len(), numbers, answer)
}

// The record that the bytes after what was taken begin with: it ends where its own act and length say. A malformed one ends reading.
fn hold_next(mem: &mut [u8], held: Held, bytes: &[u8]) -> Held
    requires { 4 * held.words ≤ length bytes.now }
    ensures { Holds (after_next (standing mem.old held) bytes.now) mem.new result }
{
    let from = 4 * held.words;
    let mut words = [0u32; RECORD_WORDS];
    let count = take_words(bytes, from, &mut words);
    let mut space = [0u8; MAX_PATH];
    match read_record(&words[..count], 0, &mut space) {
        Some(record) => hold_record(mem, held, &words[..record.end]),
        None => stop(held),
    }
}

// Takes record after record, while more than `keep` bytes are left.
pub fn hold(mem: &mut [u8], numbers: Numbers, bytes: &[u8], keep: usize) -> Held
    ensures { Holds (held_from keep (length bytes.now) (beginning mem.old numbers) bytes.now) mem.new result }
{
    let mut held = Held {
        numbers,
        words: 0,
        stopped: false,
    };
    // no `for`: where the next record begins is found by holding this one
    while !held.stopped && bytes.len() - 4 * held.words > keep {
        held = hold_next(mem, held, bytes);
    }
    held
}

// Goes on with more bytes, unless reading stopped, and counts the words on.
pub fn hold_on(mem: &mut [u8], held: Held, bytes: &[u8], keep: usize) -> Held
    requires { held.words + length bytes.now < 2 ^ 64 }
    ensures { Holds (held_on keep (standing mem.old held) bytes.now) mem.new result }
{
    if held.stopped {
        return held;
    }
    let next = hold(mem, held.numbers, bytes, keep);
    Held {
        words: held.words + next.words,
        ..next
    }
}
