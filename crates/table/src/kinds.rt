// Kinds and their numbers.
ghost use Rattle.std.specs.Prelude.{◌≡◌};
ghost use Rattle.table.specs.Entries.{kind_number, kind_of, known_kind};

use crate::Kind;
use refusals::Refusal;

// The number of a kind.
impl From<Kind> for u8 {
    ghost from_gives = { λ kind n. n ≡ kind_number kind };

    fn from(kind: Kind) -> u8 {
        kind as u8
    }
}

// The kind that a number names, if it names one.
impl TryFrom<u32> for Kind {
    type Error = Refusal;

    ghost try_from_gives = { λ n r. r ≡ known_kind (kind_of n) };

    #[tactic(auto, unfolding(crate::specs::Entries::kind_of, crate::specs::Entries::known_kind))]
    fn try_from(n: u32) -> Result<Self, Refusal> {
        match n {
            0 => Ok(Kind::G),
            1 => Ok(Kind::D),
            2 => Ok(Kind::P),
            3 => Ok(Kind::I),
            _ => Err(Refusal::Unknown),
        }
    }
}
