// Writing the record of an act: each function writes a sequence of words from an offset on, and nothing else.
ghost use Rattle.std.specs.Prelude.{◌≡◌, ℕ, List, true, ◌+◌, ◌<◌, ◌≤◌, length, get_or, option_map, IfSome};
ghost use Rattle.paths.specs.Copying.{Appends};
ghost use Rattle.paths.specs.Resolving.{max_path};
ghost use Rattle.table.specs.Carrying.{act_of, fits};
ghost use Rattle.records.specs.Numbers.{max_run, max_number, record_space};
ghost use Rattle.records.specs.Records.{kind_unit, word_of, act_number, path_word, path_words};
ghost use Rattle.records.specs.Answers.{record_words};
ghost use Rattle.records.specs.Steps.{words_for};

use crate::{ACT_UNIT, HEAD, KIND_UNIT, LENGTH, PATH, RUN, SWITCHES};
use table::{Action, Kind};

// A word of a kind, with low bits below it.
pub fn word_of(kind: u32, low: u32) -> u32
    requires { (kind < 16) × (low < kind_unit) }
    ensures { result ≡ word_of kind low }
{
    kind * KIND_UNIT + low
}

// The byte at a place, and 0 behind the end.
fn byte_or_zero(bytes: &[u8], i: usize) -> u32
    ensures { (result ≡ get_or bytes.now i 0) × (result < 256) }
{
    bytes.get(i).map_or(0, |byte| u32::from(*byte))
}

// How many words a path of n bytes takes.
pub fn words_for(n: usize) -> usize
    requires { n ≤ max_path }
    ensures { result ≡ words_for n }
{
    n.div_ceil(3)
}

// The path word of three bytes, first highest, and 0 for those that are missing.
pub(crate) fn path_word(bytes: &[u8]) -> u32
    ensures { result ≡ path_word (get_or bytes.now 0 0) (get_or bytes.now 1 0) (get_or bytes.now 2 0) }
{
    let a = byte_or_zero(bytes, 0);
    let b = byte_or_zero(bytes, 1);
    let c = byte_or_zero(bytes, 2);
    word_of(PATH, 65536 * a + 256 * b + c)
}

// Writes a path's words, and says where they end.
pub fn write_path_words(words: &mut [u32], at: usize, p: &[u8]) -> usize
    requires { (length p.now ≤ max_path) × (at + words_for (length p.now) ≤ length words.old) }
    ensures { Appends (path_words p.now) words.old at words.new result }
{
    for (k, bytes) in p.chunks(3).enumerate() {
        words[at + k] = path_word(bytes);
    }
    at + words_for(p.len())
}

// The number of an act, if the action is one. Acts go G, D, I, P, and kinds G, D, P, I.
#[tactic(auto, unfolding(table::specs::Carrying::act_of, crate::specs::Records::act_number))]
fn act_number(action: Action) -> Option<u32>
    ensures number { (q : List ℕ) → result ≡ option_map act_number (act_of action q) }
    ensures few { IfSome result (λ n. n ≤ 7) }
{
    match action {
        Action::Nothing => None,
        Action::Insert(Kind::G) => Some(1),
        Action::Insert(Kind::D) => Some(2),
        Action::Insert(Kind::I) => Some(3),
        Action::Insert(Kind::P) => Some(4),
        Action::SetSwitches(_) => Some(5),
        Action::Revoke => Some(6),
        Action::RevokeAll => Some(7),
    }
}

// Writes the record of an act, with the path q lent beside it, under its run and the number of its change, and says where it ends.
pub fn write_record(
    words: &mut [u32],
    at: usize,
    run: u32,
    number: u64,
    action: Action,
    q: &[u8],
) -> usize
    requires record_space_in_bounds { (at + record_space ≤ length words.old) × (run ≤ max_run) × (number ≤ max_number) }
    requires q_value { fits (act_of action q.now) ≡ true }
    ensures { Appends (record_words run number (act_of action q.now)) words.old at words.new result }
{
    let Some(act) = act_number(action) else {
        return at;
    };
    words[at] = word_of(RUN, run);
    words[at + 1] = word_of(HEAD, act * ACT_UNIT + number as u32);
    match action {
        Action::Insert(_) | Action::Revoke => {
            words[at + 2] = word_of(LENGTH, q.len() as u32);
            write_path_words(words, at + 3, q)
        }
        Action::SetSwitches(switches) => {
            words[at + 2] = word_of(SWITCHES, u32::from(switches));
            at + 3
        }
        Action::RevokeAll | Action::Nothing => at + 2,
    }
}
