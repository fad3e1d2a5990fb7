// The call query: the checking order, and then the walk. The lent memory is not changed.
ghost use Rattle.std.specs.Prelude.{◌≡◌};
ghost use Rattle.walk.specs.Calls.{query_call};

use crate::walking::query_desc;
use crate::{AllowPartial, PermissionState};
use paths::giving::resolve_given;
use paths::{Descriptor, MAX_PATH};
use refusals::Refusal;
use table::held::Table;

// What a path, as given with the working directory, or no path has for an answer in a mode.
pub fn query(
    mem: &[u8],
    mode: u32,
    d: Descriptor,
    path: &[u8],
    cwd: &[u8],
) -> Result<PermissionState, Refusal>
    ensures { result ≡ query_call mem.now mode d «path».now cwd.now }
{
    let table = Table::try_from(mem)?;
    let known = AllowPartial::try_from(mode)?;
    let mut space = [0u8; MAX_PATH];
    let n = resolve_given(d, path, cwd, &mut space)?;
    Ok(query_desc(&table, known, d, &space[..n]))
}
