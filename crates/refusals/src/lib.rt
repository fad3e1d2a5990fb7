// Why a call is refused: every cause of the scope, in its checking order. The definitions are in specs/.
#![tactic(auto)]

ghost use Rattle.std.specs.Prelude.{◌≡◌};
ghost use Rattle.refusals.specs.Refusals.{refusal_number};

#[derive(Clone, Copy, PartialEq, Eq)]
pub enum Refusal {
    // Lent memory is too small for a table or holds none; or the standby's run is above the highest run met, or its n above its h while the two runs
    // are the same.
    NoTable = 1,
    // Lent text, record or image space is too small.
    NoSpace = 2,
    // A number that should be a state, of a permission without a path, names none.
    UnknownState = 12,
    // An answer, mode, kind, child code or switches value is unknown, or a child list is not one that its code takes; or a run number handed to the
    // main is not from 1 to 268,435,455.
    Unknown = 3,
    EmptyPath = 4,
    PathTooLong = 5,
    // A relative path comes with a working directory that is empty, too long or relative itself.
    BadDirectory = 6,
    ResolvedTooLong = 7,
    // An insert would add an entry, and there is no room for it.
    TableFull = 8,
    // A recorded act needs a change number above the greatest, or an image would have one.
    NumbersUsedUp = 9,
    // A child asks for more than its parent passes.
    Escalation = 10,
    // A record is malformed, as one without its run word is.
    MalformedRecord = 11,
    // An image is malformed, as one without its run word is, or its content is not a table.
    MalformedImage = 13,
}

// The scope's number of a cause.
impl From<Refusal> for u8 {
    ghost from_gives = { λ refusal n. n ≡ refusal_number refusal };

    fn from(refusal: Refusal) -> u8 {
        refusal as u8
    }
}
