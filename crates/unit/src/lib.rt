// A permission without a path, yes or no, the Rust's UnitPermission: one state, lent as its number, and the prompt setting. No memory and no space
// is lent, and no text is written. The definitions are in specs/.
#![tactic(auto)]

ghost use Rattle.deciding.specs.declared.Call.TheVariants.{Check, Request};
ghost use Rattle.unit.specs.Calls.{AsksUnit, RevokesUnit};

use deciding::{Call, PromptResponse};
use refusals::Refusal;
use walk::PermissionState;

pub mod decisions;

// What a call decides: the state that it leaves, Granted where a check passes, and whether the operator was asked.
#[derive(Clone, Copy)]
pub struct Decided {
    pub state: PermissionState,
    pub asked: bool,
}

// Checks or requests, with the operator's answer at hand.
fn ask(call: Call, state: &mut u32, prompt: bool, response: u32) -> Result<Decided, Refusal>
    ensures { AsksUnit call state.old prompt response state.new result }
{
    let found = PermissionState::try_from(*state)?;
    let known = PromptResponse::try_from(response)?;
    let decided = decisions::decide(call, found, prompt, known);
    *state = u32::from(u8::from(decided.state));
    Ok(decided)
}

// Requests: wherever the state is Prompt the operator is asked, whatever the setting, and Allow alone is a yes.
pub fn request(state: &mut u32, prompt: bool, response: u32) -> Result<Decided, Refusal>
    ensures { AsksUnit Request state.old prompt response state.new result }
{
    ask(Call::Request, state, prompt, response)
}

// Checks: Granted passes, Prompt with the setting asks, and else it fails with the state.
pub fn check(state: &mut u32, prompt: bool, response: u32) -> Result<Decided, Refusal>
    ensures { AsksUnit Check state.old prompt response state.new result }
{
    ask(Call::Check, state, prompt, response)
}

// Revokes: Granted becomes Prompt, and every other state stays.
pub fn revoke(state: &mut u32) -> Result<PermissionState, Refusal>
    ensures { RevokesUnit state.old state.new result }
{
    let before = PermissionState::try_from(*state)?;
    let left = decisions::revoked(before);
    *state = u32::from(u8::from(left));
    Ok(left)
}
