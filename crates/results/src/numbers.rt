// Results as numbers. A negative one −n is refusal n of the scope.
ghost use Rattle.std.specs.Prelude.{◌≡◌};
ghost use Rattle.results.specs.Numbers.{
  refused_number,
  outcome_number,
  answer_number,
  asked_number,
  question_number,
  question_size,
  arrival_number,
  compared_number,
  compared_common,
};
ghost use Rattle.calls.specs.Calls.{answered, told as was_told, text_size, words_in, revoked_answer, revoked_words};
ghost use Rattle.unit.specs.Calls.{answer_in, asked_in};
ghost use Rattle.results.specs.Exports.{TellsListed};

use calls::{Asked, Revoked};
use paths::Comparison;
use refusals::Refusal;
use standby::Arrival;
use table::Listed;
use unit::Decided;
use walk::PermissionState;

// A refusal as a result.
pub fn refused(cause: Refusal) -> i32
    ensures { result ≡ refused_number cause }
{
    -i32::from(u8::from(cause))
}

// 0, whatever is handed on, or a refusal.
pub fn outcome_number<A: Drop>(outcome: Result<A, Refusal>) -> i32
    ensures { result ≡ outcome_number outcome }
{
    outcome.map_or_else(refused, |_| 0)
}

pub fn answer_number(answer: Result<PermissionState, Refusal>) -> i32
    ensures { result ≡ answer_number answer }
{
    answer.map_or_else(refused, |state| i32::from(u8::from(state)))
}

pub fn question_number(question: Result<Option<usize>, Refusal>) -> i32
    ensures { result ≡ question_number question }
{
    question.map_or_else(refused, |asks| i32::from(asks.is_some()))
}

pub fn question_size(question: Result<Option<usize>, Refusal>) -> usize
    ensures { result ≡ question_size question }
{
    if let Ok(Some(n)) = question { n } else { 0 }
}

pub fn arrival_number(answer: Result<Arrival, Refusal>) -> i32
    ensures { result ≡ arrival_number answer }
{
    answer.map_or_else(refused, |arrival| arrival as i32)
}

pub fn compared_number(compared: Result<Comparison, Refusal>) -> i32
    ensures { result ≡ compared_number compared }
{
    compared.map_or_else(refused, |found| found.relation as i32)
}

pub fn compared_common(compared: Result<Comparison, Refusal>) -> usize
    ensures { result ≡ compared_common compared }
{
    compared.map_or(0, |found| found.common)
}

// Writes whether the operator was asked, how many bytes the text has and how many words hold the record, none where the call is refused, and says the state.
pub fn tell_asked(
    answer: Result<Asked, Refusal>,
    told: &mut u32,
    size: &mut usize,
    count: &mut usize,
) -> i32
    ensures number { result ≡ answer_number (answered answer) }
    ensures asked { told.new ≡ asked_number (was_told answer) }
    ensures text { size.new ≡ text_size answer }
    ensures words { count.new ≡ words_in answer }
{
    *told = u32::from(answer.is_ok_and(|asked| asked.asked));
    *size = answer.map_or(0, |asked| asked.text);
    *count = answer.map_or(0, |asked| asked.words);
    answer_number(answer.map(|asked| asked.state))
}

// Writes how many words hold the record, none where the call is refused, and says the state.
pub fn tell_revoked(answer: Result<Revoked, Refusal>, count: &mut usize) -> i32
    ensures number { result ≡ answer_number (revoked_answer answer) }
    ensures words { count.new ≡ revoked_words answer }
{
    *count = answer.map_or(0, |revoked| revoked.words);
    answer_number(answer.map(|revoked| revoked.state))
}

// Writes whether the operator was asked about a permission without a path, and says its state.
#[tactic(auto, unfolding(unit::specs::Calls::answer_in, unit::specs::Calls::asked_in))]
pub fn tell_decided(answer: Result<Decided, Refusal>, told: &mut u32) -> i32
    ensures number { result ≡ answer_number (answer_in answer) }
    ensures asked { told.new ≡ asked_number (asked_in answer) }
{
    *told = u32::from(answer.is_ok_and(|decided| decided.asked));
    answer_number(answer.map(|decided| decided.state))
}

// Writes what stands at a place of a list, and says whether an entry is there.
pub fn tell_listed(listed: Option<Listed>, kind: &mut u32, at: &mut usize, size: &mut usize) -> i32
    ensures { TellsListed listed kind.new at.new size.new result }
{
    match listed {
        Some(entry) => {
            *kind = u32::from(u8::from(entry.kind));
            *at = entry.at;
            *size = entry.size;
            1
        }
        None => {
            *kind = 0;
            *at = 0;
            *size = 0;
            0
        }
    }
}
