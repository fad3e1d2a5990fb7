// What request, check and revoke make of a state. Scope, "Permissions without a path".
ghost use Rattle.std.specs.Prelude.{◌≡◌};
ghost use Rattle.unit.specs.Unit.{
  settle,
  request_asks,
  request_state_by,
  request,
  check_asks,
  check,
  decide,
  revoke,
};

use crate::Decided;
use deciding::decisions::state_by;
use deciding::{Call, PromptResponse};
use walk::PermissionState;

// Where a call asks, the answer settles the state; else it stays.
fn settle(asks: bool, answered: PermissionState, state: PermissionState) -> Decided
    ensures { result ≡ settle asks answered state }
{
    Decided {
        state: if asks { answered } else { state },
        asked: asks,
    }
}

// ---- request

// A request asks at Prompt; the setting is at hand, and is not looked at.
fn request_asks(state: PermissionState, prompt: bool) -> bool
    ensures { result ≡ request_asks state prompt }
{
    state == PermissionState::Prompt
}

// What a request comes to by an answer: Allow alone is a yes.
fn request_state_by(response: PromptResponse) -> PermissionState
    ensures { result ≡ request_state_by response }
{
    match response {
        PromptResponse::Allow => PermissionState::Granted,
        PromptResponse::Deny | PromptResponse::AllowAll => PermissionState::Denied,
    }
}

fn request(state: PermissionState, prompt: bool, response: PromptResponse) -> Decided
    ensures { result ≡ request state prompt response }
{
    settle(
        request_asks(state, prompt),
        request_state_by(response),
        state,
    )
}

// ---- check

// A check asks at Prompt with the setting.
fn check_asks(state: PermissionState, prompt: bool) -> bool
    ensures { result ≡ check_asks state prompt }
{
    prompt && state == PermissionState::Prompt
}

// Either yes passes.
fn check(state: PermissionState, prompt: bool, response: PromptResponse) -> Decided
    ensures { result ≡ check state prompt response }
{
    settle(check_asks(state, prompt), state_by(response), state)
}

// ---- either

pub(crate) fn decide(
    call: Call,
    state: PermissionState,
    prompt: bool,
    response: PromptResponse,
) -> Decided
    ensures { result ≡ decide call state prompt response }
{
    match call {
        Call::Check => check(state, prompt, response),
        Call::Request => request(state, prompt, response),
    }
}

// ---- revoke

// Granted becomes Prompt, and every other state stays.
pub(crate) fn revoked(state: PermissionState) -> PermissionState
    ensures { result ≡ revoke state }
{
    if state == PermissionState::Granted {
        PermissionState::Prompt
    } else {
        state
    }
}
