// Run numbers.
ghost use Rattle.std.specs.Prelude.{◌≡◌};
ghost use Rattle.records.specs.Numbers.{is_run};

use crate::MAX_RUN;

// Whether a number is that of a run.
#[tactic(auto, using(std::proofs::lemmas::Bool::Decides::nat_tests), unfolding(crate::specs::Numbers::is_run))]
pub fn is_run(run: u32) -> bool
    ensures { result ≡ is_run run }
{
    (1..=MAX_RUN).contains(&run)
}
