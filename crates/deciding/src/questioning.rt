// What a check or request would ask the operator, before the answer is known. Nothing changes here but the text space.
ghost use Rattle.deciding.specs.Questions.{Questions};

use crate::decisions::decide;
use crate::texts::write_text;
use crate::{Call, PromptResponse, TEXT_BYTES};
use paths::giving::resolve_given;
use paths::{Descriptor, MAX_PATH};
use refusals::Refusal;
use table::held::Table;

// The text that a check or request of a path as given with the working directory, or of reading as a whole, would ask, and how long it is; none, where
// nothing would be asked.
pub fn question(
    mem: &[u8],
    call: Call,
    d: Descriptor,
    path: &[u8],
    cwd: &[u8],
    space: &mut [u8],
) -> Result<Option<usize>, Refusal>
    ensures { Questions call mem.now space.old d «path».now cwd.now space.new result }
{
    let table = Table::try_from(mem)?;
    if space.len() < TEXT_BYTES {
        return Err(Refusal::NoSpace);
    }
    let mut resolved = [0u8; MAX_PATH];
    let n = resolve_given(d, path, cwd, &mut resolved)?;
    let q = &resolved[..n];
    // any other answer would do: it makes no difference to whether the operator is asked
    if decide(&table, call, d, q, PromptResponse::Deny).asked {
        Ok(Some(write_text(space, d, path, q)))
    } else {
        Ok(None)
    }
}
