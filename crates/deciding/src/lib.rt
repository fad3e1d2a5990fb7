// What check, request and revoke decide, their texts, and what a call would ask. Nothing here changes a table. The definitions are in specs/.
#![tactic(auto)]

use table::Action;
use walk::PermissionState;

pub mod decisions;
pub mod questioning;
mod responses;
pub mod texts;

// The bytes that a text can take: `read access to `, a name of 1,024 bytes and two quotes.
pub const TEXT_BYTES: usize = 1041;

// The operator's answer, with the Rust's names: the scope's Deny, Allow and AllowAll, in its order.
#[derive(Clone, Copy, PartialEq, Eq)]
pub enum PromptResponse {
    Deny,
    Allow,
    AllowAll,
}

// The calls that may ask the operator. They differ in their decision alone.
#[derive(Clone, Copy, PartialEq, Eq)]
pub enum Call {
    Check,
    Request,
}

// What a call decides: the state that it comes to, Granted where a check passes; whether the operator was asked; whether a text is due; and
// the act that is still to be carried out.
#[derive(Clone, Copy)]
pub struct Decided {
    pub state: PermissionState,
    pub asked: bool,
    pub writes: bool,
    pub action: Action,
}
