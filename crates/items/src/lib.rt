// A list of paths with the operator's answer for each, as a call is handed one: the bytes of the paths one after the other, and the position at which each ends. The
// definitions are in specs/.
#![tactic(auto)]

ghost use Rattle.std.specs.Prelude.{◌≡◌, true, ◌<◌, length, get_or, Some};
ghost use Rattle.deciding.specs.Decisions.{response_of};
ghost use Rattle.items.specs.Items.{close_at};
ghost use Rattle.items.specs.Steps.{are_responses};

use deciding::PromptResponse;

// The most items of a list.
pub const MAX_ITEMS: usize = 64;

// The paths' bytes, the position at which each path ends, and the answers' numbers.
#[derive(Clone, Copy)]
pub struct ItemList<'a> {
    pub bytes: &'a [u8],
    pub ends: &'a [u32],
    pub responses: &'a [u32],
}

// Whether every answer is known.
#[tactic(auto, unfolding(crate::specs::Steps::are_responses))]
pub fn are_responses(responses: &[u32]) -> bool
    ensures { result ≡ are_responses responses.now }
{
    responses
        .iter()
        .all(|n| PromptResponse::try_from(*n).is_ok())
}

// The answer at a place of answers that are all known.
#[tactic(auto, unfolding(crate::specs::Steps::are_responses, deciding::specs::Decisions::known_response))]
pub fn response_at(responses: &[u32], i: usize) -> PromptResponse
    requires { (are_responses responses.now ≡ true) × (i < length responses.now) }
    ensures { response_of (get_or responses.now i 0) ≡ Some result }
{
    PromptResponse::try_from(responses[i]).unwrap()
}

// Whether end positions do not fall and close at n.
pub fn close_at(n: usize, ends: &[u32]) -> bool
    ensures { result ≡ close_at n 0 ends.now }
{
    ends.is_sorted() && ends.last().copied().unwrap_or(0) as usize == n
}
