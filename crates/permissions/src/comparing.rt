// How two paths relate, for C: no table is lent.
ghost use Rattle.results.specs.Exports.{ExportedComparison};

use paths::giving::relate_given;
use results::numbers::{compared_common, compared_number};

// How a path relates to another. How many leading components they share goes to `common`.
#[unsafe(no_mangle)]
pub extern "C" fn permissions_common(
    first: &[u8],
    second: &[u8],
    cwd: &[u8],
    common: &mut usize,
) -> i32
    ensures { ExportedComparison first.now second.now cwd.now common.new result }
{
    let compared = relate_given(first, second, cwd);
    *common = compared_common(compared);
    compared_number(compared)
}
