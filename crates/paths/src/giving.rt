// What a call is given, resolved: the first step of every call that takes a path or none; and the call that compares two given paths.
ghost use Rattle.std.specs.Prelude.{◌≡◌};
ghost use Rattle.paths.specs.Giving.{Gives};
ghost use Rattle.paths.specs.Comparing.{compare_call};

use crate::relating::relate;
use crate::resolving::resolve;
use crate::{Comparison, Descriptor, MAX_PATH};
use refusals::Refusal;

// Resolves what is given into the space, from its start, and says how long it is then; with no path there is nothing to resolve.
#[tactic(auto, unfolding(crate::specs::Giving::given_resolution, crate::specs::Giving::given_into))]
pub fn resolve_given(
    d: Descriptor,
    path: &[u8],
    cwd: &[u8],
    space: &mut [u8; MAX_PATH],
) -> Result<usize, Refusal>
    ensures { Gives d «path».now cwd.now space.old result space.new }
{
    match d {
        Descriptor::NoPath => Ok(0),
        Descriptor::Path => resolve(path, cwd, space),
    }
}

// How a path relates to another, both as given with one working directory, and how many leading components they share.
#[tactic(auto, using(crate::proofs::GivingLaws::comparing))]
pub fn relate_given(first: &[u8], second: &[u8], cwd: &[u8]) -> Result<Comparison, Refusal>
    ensures { result ≡ compare_call first.now second.now cwd.now }
{
    let mut left = [0u8; MAX_PATH];
    let n = resolve(first, cwd, &mut left)?;
    let mut right = [0u8; MAX_PATH];
    let m = resolve(second, cwd, &mut right)?;
    Ok(relate(&left[..n], &right[..m]))
}
