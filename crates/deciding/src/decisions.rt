// What check, request and revoke decide, from a table and the operator's answer. Scope, "A call comes in".
// Nothing changes here: the act that is decided on is still to be carried out.
ghost use Rattle.std.specs.Prelude.{◌≡◌, List, ℕ, ◌<◌, ◌≤◌, Some};
ghost use Rattle.paths.specs.Giving.{query_of};
ghost use Rattle.table.specs.Carrying.{act_of};
ghost use Rattle.deciding.specs.Decisions.{
  switch_on,
  grant_act,
  deny_act,
  answer_act,
  state_by,
  unasked,
  asks,
  check_mode,
  check_by,
  check_desc,
  request_by,
  request_desc,
  decide,
  revoke_act,
};
ghost use Rattle.deciding.specs.Steps.{Decides};

use crate::{Call, Decided, PromptResponse};
use paths::Descriptor;
use table::bits::set_bit;
use table::held::Table;
use table::{Action, GRANTED, Kind, PROMPT, PROMPT_DENIED};
use walk::walking::{is_allow_all, query_desc};
use walk::{AllowPartial, PermissionState};

// ---- acts

// Sets a switch in the table.
#[tactic(auto, unfolding(crate::specs::Decisions::switch_on, table::specs::Carrying::act_of))]
fn switch_action(table: &Table<'_>, bit: u8) -> Action
    requires { (0 < bit) × (bit ≤ 16) }
    ensures { (q : List ℕ) → act_of result q ≡ Some (switch_on table.now bit) }
{
    Action::SetSwitches(set_bit(table.switches(), bit))
}

// A yes.
#[tactic(auto, unfolding(crate::specs::Decisions::grant_act, paths::specs::Giving::query_of, table::specs::Carrying::act_of))]
pub fn grant_action(table: &Table<'_>, d: Descriptor) -> Action
    ensures { (q : List ℕ) → act_of result q ≡ Some (grant_act table.now (query_of d q)) }
{
    match d {
        Descriptor::NoPath => switch_action(table, GRANTED),
        Descriptor::Path => Action::Insert(Kind::G),
    }
}

// A no.
#[tactic(auto, unfolding(crate::specs::Decisions::deny_act, paths::specs::Giving::query_of, table::specs::Carrying::act_of))]
fn deny_action(table: &Table<'_>, d: Descriptor) -> Action
    ensures { (q : List ℕ) → act_of result q ≡ Some (deny_act table.now (query_of d q)) }
{
    match d {
        Descriptor::NoPath => switch_action(table, PROMPT_DENIED),
        Descriptor::Path => Action::Insert(Kind::P),
    }
}

// The act that an answer makes; AllowAll is a yes with no path.
#[tactic(auto, unfolding(crate::specs::Decisions::answer_act, crate::specs::Decisions::grant_act, paths::specs::Giving::query_of))]
fn answer_action(table: &Table<'_>, d: Descriptor, response: PromptResponse) -> Action
    ensures { (q : List ℕ) → act_of result q ≡ Some (answer_act table.now (query_of d q) response) }
{
    match response {
        PromptResponse::Deny => deny_action(table, d),
        PromptResponse::Allow => grant_action(table, d),
        PromptResponse::AllowAll => grant_action(table, Descriptor::NoPath),
    }
}

// ---- the two ways to decide

// Without asking: a state, and perhaps a text.
#[tactic(auto, unfolding(crate::specs::Decisions::unasked, table::specs::Carrying::act_of))]
fn unasked(state: PermissionState, writes: bool) -> Decided
    ensures { (q : List ℕ) → Decides (unasked state writes) q result }
{
    Decided {
        state,
        asked: false,
        writes,
        action: Action::Nothing,
    }
}

// What a call comes to by an answer.
#[tactic(auto, unfolding(crate::specs::Decisions::state_by))]
pub fn state_by(response: PromptResponse) -> PermissionState
    ensures { result ≡ state_by response }
{
    match response {
        PromptResponse::Deny => PermissionState::Denied,
        PromptResponse::Allow | PromptResponse::AllowAll => PermissionState::Granted,
    }
}

// By the operator's answer.
#[tactic(auto, unfolding(crate::specs::Decisions::asks))]
fn asks(table: &Table<'_>, d: Descriptor, response: PromptResponse) -> Decided
    ensures { (q : List ℕ) → Decides (asks table.now (query_of d q) response) q result }
{
    Decided {
        state: state_by(response),
        asked: true,
        writes: true,
        action: answer_action(table, d, response),
    }
}

// ---- check

// The mode of a check.
#[tactic(auto, unfolding(crate::specs::Decisions::check_mode, paths::specs::Giving::query_of))]
fn check_mode(d: Descriptor) -> AllowPartial
    ensures { (q : List ℕ) → result ≡ check_mode (query_of d q) }
{
    match d {
        Descriptor::NoPath => AllowPartial::TreatAsGranted,
        Descriptor::Path => AllowPartial::TreatAsDenied,
    }
}

// A check, by the state of what is asked about.
#[tactic(auto, unfolding(crate::specs::Decisions::check_by))]
fn check_by(
    table: &Table<'_>,
    d: Descriptor,
    response: PromptResponse,
    state: PermissionState,
) -> Decided
    ensures { (q : List ℕ) → Decides (check_by table.now (query_of d q) response state) q result }
{
    match state {
        PermissionState::Granted => unasked(state, false),
        PermissionState::Prompt if table.has_switch(PROMPT) => asks(table, d, response),
        _ => unasked(state, true),
    }
}

// What a check decides; where every query is granted it passes without a walk.
#[tactic(auto, unfolding(crate::specs::Decisions::check_desc))]
fn check_desc(table: &Table<'_>, d: Descriptor, q: &[u8], response: PromptResponse) -> Decided
    ensures { Decides (check_desc table.now (query_of d q.now) response) q.now result }
{
    if is_allow_all(table) {
        unasked(PermissionState::Granted, false)
    } else {
        check_by(table, d, response, query_desc(table, check_mode(d), d, q))
    }
}

// ---- request

// A request, by the state of what is asked about.
#[tactic(auto, unfolding(crate::specs::Decisions::request_by))]
fn request_by(
    table: &Table<'_>,
    d: Descriptor,
    response: PromptResponse,
    state: PermissionState,
) -> Decided
    ensures { (q : List ℕ) → Decides (request_by table.now (query_of d q) response state) q result }
{
    match state {
        PermissionState::Granted => Decided {
            state,
            asked: false,
            writes: false,
            action: grant_action(table, d),
        },
        PermissionState::Prompt if table.has_switch(PROMPT) => asks(table, d, response),
        PermissionState::Prompt => unasked(PermissionState::Denied, false),
        _ => unasked(state, false),
    }
}

// What a request decides; it queries in mode partial.
#[tactic(auto, unfolding(crate::specs::Decisions::request_desc))]
fn request_desc(table: &Table<'_>, d: Descriptor, q: &[u8], response: PromptResponse) -> Decided
    ensures { Decides (request_desc table.now (query_of d q.now) response) q.now result }
{
    let state = query_desc(table, AllowPartial::TreatAsPartialGranted, d, q);
    request_by(table, d, response, state)
}

// ---- either

// What a call decides of what is resolved.
#[tactic(auto, unfolding(crate::specs::Decisions::decide))]
pub fn decide(
    table: &Table<'_>,
    call: Call,
    d: Descriptor,
    q: &[u8],
    response: PromptResponse,
) -> Decided
    ensures { Decides (decide call table.now (query_of d q.now) response) q.now result }
{
    match call {
        Call::Check => check_desc(table, d, q, response),
        Call::Request => request_desc(table, d, q, response),
    }
}

// ---- revoke

// The act of a revoke: of a path, or of all.
#[tactic(auto, unfolding(crate::specs::Decisions::revoke_act, paths::specs::Giving::query_of, table::specs::Carrying::act_of))]
pub fn revoke_action(d: Descriptor) -> Action
    ensures { (q : List ℕ) → act_of result q ≡ Some (revoke_act (query_of d q)) }
{
    match d {
        Descriptor::NoPath => Action::RevokeAll,
        Descriptor::Path => Action::Revoke,
    }
}
