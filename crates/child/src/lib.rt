// A child's table, made from its parent's: the Rust's `create_child_permissions`. The definitions are in specs/.
#![tactic(auto)]

ghost use Rattle.std.specs.Prelude.{◌≡◌};
ghost use Rattle.child.specs.Steps.{child_sent};

use refusals::Refusal;

pub mod arguments;
pub mod creating;
pub mod granting;
pub mod inheriting;

// What a child is to have, with the Rust's names: the scope's child codes Inherit, Granted, NotGranted and list, in its order.
#[derive(Clone, Copy, PartialEq, Eq)]
pub enum ChildUnaryPermissionArg {
    Inherit,
    Granted,
    NotGranted,
    GrantedList,
}

// What a child call answers, and how often the operator was asked. No `Result` of the count: it is told where the call is refused, too.
#[derive(Clone, Copy)]
pub struct ChildMade {
    pub outcome: Result<(), Refusal>,
    pub asked: usize,
}

// The same, and how many words of the record space hold its records, which stand there also where it is refused.
#[derive(Clone, Copy)]
pub struct ChildSent {
    pub made: ChildMade,
    pub words: usize,
}

impl ChildSent {
    // What a call answers, with how often the operator was asked and where its records end.
    fn new(outcome: Result<(), Refusal>, asked: usize, words: usize) -> ChildSent
        ensures { result ≡ child_sent outcome asked words }
    {
        ChildSent {
            made: ChildMade { outcome, asked },
            words,
        }
    }
}
