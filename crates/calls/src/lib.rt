// The calls switches, insert, check, request and revoke, each one function, plain or linked: it decides first, and then performs its act. The definitions are in specs/.
#![tactic(auto)]

use walk::PermissionState;

pub mod asking;
pub mod changing;
pub mod revoking;

// What a check or request comes to whose act is carried out: its state, whether the operator was asked, whether a text is due, how many bytes
// the resolved path has, and where its record ends.
#[derive(Clone, Copy)]
pub struct Settled {
    pub state: PermissionState,
    pub asked: bool,
    pub writes: bool,
    pub size: usize,
    pub words: usize,
}

// What check and request answer that are not refused: a state, Granted where a check passes; whether the operator was asked; how many bytes of
// the text space hold the text; and how many words of the record space its record.
#[derive(Clone, Copy)]
pub struct Asked {
    pub state: PermissionState,
    pub asked: bool,
    pub text: usize,
    pub words: usize,
}

// What revoke answers that is not refused, and how many words of the record space hold its record.
#[derive(Clone, Copy)]
pub struct Revoked {
    pub state: PermissionState,
    pub words: usize,
}
