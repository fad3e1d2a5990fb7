// The call that writes a fresh table into lent memory.
ghost use Rattle.table.specs.Calls.{MakesFresh};

use crate::TABLE_BYTES;
use crate::writing::write_head;
use refusals::Refusal;

// Writes a fresh table into memory that is large enough.
pub fn make_fresh(mem: &mut [u8]) -> Result<(), Refusal>
    ensures { MakesFresh mem.old mem.new result }
{
    if mem.len() < TABLE_BYTES {
        return Err(Refusal::NoTable);
    }
    write_head(mem, 0, 0, 0);
    Ok(())
}
