// The operator's answer, handed in as a number. Scope, "A call comes in".
ghost use Rattle.std.specs.Prelude.{◌≡◌};
ghost use Rattle.deciding.specs.Decisions.{response_of, known_response};

use crate::PromptResponse;
use refusals::Refusal;

// The answer that a number names.
impl TryFrom<u32> for PromptResponse {
    type Error = Refusal;

    ghost try_from_gives = { λ n r. r ≡ known_response (response_of n) };

    #[tactic(auto, unfolding(crate::specs::Decisions::response_of, crate::specs::Decisions::known_response))]
    fn try_from(n: u32) -> Result<Self, Refusal> {
        match n {
            0 => Ok(PromptResponse::Deny),
            1 => Ok(PromptResponse::Allow),
            2 => Ok(PromptResponse::AllowAll),
            _ => Err(Refusal::Unknown),
        }
    }
}
