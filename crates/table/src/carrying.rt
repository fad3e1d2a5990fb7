// Carrying out the act that a call decided on, the only change of a table. Scope, "A call comes in".
ghost use Rattle.std.specs.Prelude.{◌≡◌, true};
ghost use Rattle.table.specs.Memory.{holds};
ghost use Rattle.table.specs.Carrying.{act_of, fits, CarriesOut};

use crate::Action;
use crate::inserting::insert_entry;
use crate::revoking::{revoke_grants, revoke_path, set_switches_byte};
use refusals::Refusal;

// Carries out an act, with the path q lent beside it. What changes a table takes the lent memory itself, here and above: of a type with the `&mut` inside
// nothing could be promised of that memory after the call. It is refused, and nothing changes, where an entry would be added and there is no room for it.
pub fn carry_out(mem: &mut [u8], action: Action, q: &[u8]) -> Result<(), Refusal>
    requires mem_value { holds mem.old ≡ true }
    requires q_value { fits (act_of action q.now) ≡ true }
    ensures { CarriesOut (act_of action q.now) mem.old mem.new result }
{
    match action {
        Action::Nothing => {}
        Action::Insert(kind) => insert_entry(mem, kind, q)?,
        Action::SetSwitches(switches) => set_switches_byte(mem, switches),
        Action::Revoke => revoke_path(mem, q),
        Action::RevokeAll => revoke_grants(mem),
    }
    Ok(())
}
