// Permissions without a path, for C: the state is lent as its number, and a setting is on unless it is 0.
ghost use Rattle.deciding.specs.declared.Call.TheVariants.{Check, Request};
ghost use Rattle.results.specs.Exports.{ExportedUnit, ExportedUnitRevoke};

use results::numbers::{answer_number, tell_decided};

// Checks. Whether the operator was asked goes to `told`.
#[unsafe(no_mangle)]
pub extern "C" fn permissions_unit_check(
    state: &mut u32,
    prompt: u32,
    response: u32,
    told: &mut u32,
) -> i32
    ensures { ExportedUnit Check state.old prompt response state.new told.new result }
{
    tell_decided(unit::check(state, prompt != 0, response), told)
}

// Requests, whatever the setting.
#[unsafe(no_mangle)]
pub extern "C" fn permissions_unit_request(
    state: &mut u32,
    prompt: u32,
    response: u32,
    told: &mut u32,
) -> i32
    ensures { ExportedUnit Request state.old prompt response state.new told.new result }
{
    tell_decided(unit::request(state, prompt != 0, response), told)
}

// Revokes.
#[unsafe(no_mangle)]
pub extern "C" fn permissions_unit_revoke(state: &mut u32) -> i32
    ensures { ExportedUnitRevoke state.old state.new result }
{
    answer_number(unit::revoke(state))
}
