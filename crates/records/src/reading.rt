// Reading a record word after word from lent words. Words that depart from the form in anything are malformed.
ghost use Rattle.std.specs.Prelude.{◌≡◌, List, ℕ, ◌-◌, ◌*◌, ◌≤◌, length, drop, Some};
ghost use Rattle.paths.specs.Components.{same};
ghost use Rattle.paths.specs.Copying.{overwrite};
ghost use Rattle.paths.specs.Resolving.{max_path};
ghost use Rattle.table.specs.Carrying.{action_of};
ghost use Rattle.records.specs.Records.{path_words, bytes_from, if_resolved, read_first};
ghost use Rattle.records.specs.Answers.{ReadsRecord};
ghost use Rattle.records.specs.Steps.{words_for, word_bytes, low_of, run_of, length_of, switches_of, path_behind, ReadsPath, path_act};

use crate::words::read_front;
use crate::writing::{path_word, words_for};
use crate::{ACT_UNIT, KIND_UNIT, LENGTH, PATH_ROOM, PathRead, RUN, Record, SWITCHES};
use paths::MAX_PATH;
use paths::resolving::is_resolved;
use table::{Action, Kind, MAX_SWITCHES};

// What stands below the kind of a word, if it is of that kind.
fn low_of(word: Option<u32>, kind: u32) -> Option<u32>
    ensures { result ≡ low_of kind word }
{
    let word = word?;
    (word / KIND_UNIT == kind).then_some(word % KIND_UNIT)
}

// The run that a word says, if it is a run word.
#[tactic(auto, using(std::proofs::lemmas::Bool::Decides::nat_tests), unfolding(crate::specs::Steps::run_of, crate::specs::Records::is_run_word))]
pub fn run_of(word: Option<u32>) -> Option<u32>
    ensures { result ≡ run_of word }
{
    let run = low_of(word, RUN)?;
    (run >= 1).then_some(run)
}

// The path length that a word says, if it is a length word.
#[tactic(auto, using(std::proofs::lemmas::Bool::Decides::nat_tests), unfolding(crate::specs::Steps::length_of, crate::specs::Records::is_length))]
fn path_length(word: Option<u32>) -> Option<usize>
    ensures { result ≡ length_of word }
{
    let n = low_of(word, LENGTH)? as usize;
    (1..=MAX_PATH).contains(&n).then_some(n)
}

// The switches that a word says, if it is a switches word.
#[tactic(auto, using(std::proofs::lemmas::Bool::Decides::nat_tests), unfolding(crate::specs::Steps::switches_of, crate::specs::Records::is_switches))]
fn switches_of(word: Option<u32>) -> Option<u8>
    ensures { result ≡ switches_of word }
{
    let switches = u8::try_from(low_of(word, SWITCHES)?).ok()?;
    (switches <= MAX_SWITCHES).then_some(switches)
}

// Takes three bytes out of each word, whatever its kind.
fn take_bytes(words: &[u32], work: &mut [u8])
    requires { 3 * length words.now ≤ length work.old }
    ensures { work.new ≡ overwrite work.old 0 (word_bytes words.now) }
{
    for (k, word) in words.iter().enumerate() {
        work[3 * k..3 * k + 3].copy_from_slice(&word.to_be_bytes()[1..]);
    }
}

// Whether words are those that p is written as: so their kinds and their unused bytes are in order.
fn are_words_of(words: &[u32], p: &[u8]) -> bool
    requires { length words.now ≡ words_for (length p.now) }
    ensures { result ≡ same words.now (path_words p.now) }
{
    words
        .iter()
        .zip(p.chunks(3))
        .all(|(word, bytes)| *word == path_word(bytes))
}

// Reads a path of n bytes into the lent space: its words begin at a place, behind which so many words are left. The path is put there only
// when all of it is in order.
pub fn read_path_of(
    words: &[u32],
    n: usize,
    at: usize,
    left: usize,
    space: &mut [u8; MAX_PATH],
) -> Option<PathRead>
    requires { (1 ≤ n) × (n ≤ max_path) × (left ≡ length words.now - at) }
    ensures { ReadsPath at (if_resolved (bytes_from n (drop at words.now))) space.old result space.new }
{
    let count = words_for(n);
    if left < count {
        return None;
    }
    let own = &words[at..at + count];
    let mut work = [0u8; PATH_ROOM];
    take_bytes(own, &mut work);
    let path = &work[..n];
    if !are_words_of(own, path) || !is_resolved(path) {
        return None;
    }
    space[..n].copy_from_slice(path);
    Some(PathRead {
        size: n,
        end: at + count,
    })
}

// Reads a path whose length is what the word behind the head says.
fn read_path(
    words: &[u32],
    next: Option<u32>,
    at: usize,
    left: usize,
    space: &mut [u8; MAX_PATH],
) -> Option<PathRead>
    requires { left ≡ length words.now - at }
    ensures { ReadsPath at (path_behind next (drop at words.now)) space.old result space.new }
{
    let n = path_length(next)?;
    read_path_of(words, n, at, left, space)
}

// The act of a head that takes a path, by the format's numbers, which are not those of the kinds.
#[tactic(auto, unfolding(table::specs::Carrying::action_of, crate::specs::Steps::path_act))]
fn path_action(act: u8) -> Action
    ensures { (q : List ℕ) → result ≡ action_of (Some (path_act act q)) }
{
    match act {
        1 => Action::Insert(Kind::G),
        2 => Action::Insert(Kind::D),
        3 => Action::Insert(Kind::I),
        4 => Action::Insert(Kind::P),
        _ => Action::Revoke,
    }
}

// Reads the record that the words from a place on begin with, and its path into the lent space. A head's kind and act bits together
// decide what must follow it.
pub fn read_record(words: &[u32], from: usize, space: &mut [u8; MAX_PATH]) -> Option<Record>
    ensures { ReadsRecord from (read_first (drop from words.now)) space.old result space.new }
{
    let front = read_front(words, from);
    let run = run_of(front.run)?;
    let head = front.head?;
    let number = u64::from(head % ACT_UNIT);
    if number == 0 {
        return None;
    }
    let top = (head / ACT_UNIT) as u8;
    let (action, size, end) = match top {
        0x11..=0x14 | 0x16 => {
            let path = read_path(words, front.next, front.at, front.left, space)?;
            (path_action(top % 16), path.size, path.end)
        }
        0x15 => (Action::SetSwitches(switches_of(front.next)?), 0, front.at),
        0x17 => (Action::RevokeAll, 0, from + 2),
        0..=0x10 | 0x18..=0xFF => return None,
    };
    Some(Record {
        run,
        number,
        action,
        size,
        end,
    })
}
