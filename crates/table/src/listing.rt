// Listing a table: the entry at each place.
ghost use Rattle.std.specs.Prelude.{◌≡◌, true};
ghost use Rattle.table.specs.Memory.{holds};
ghost use Rattle.table.specs.Listing.{listed};

use crate::{ENTRY_HEAD, LENGTH_OFFSET, Listed, reading};

// The entry at a place of the list, and where its path stands, if there is one.
#[tactic(auto, using(crate::proofs::Puts::long_of))]
pub fn entry_at(mem: &[u8], place: usize) -> Option<Listed>
    requires { holds mem.now ≡ true }
    ensures { result ≡ listed mem.now place }
{
    if place >= reading::word_at(mem, 0) {
        return None;
    }
    let at = reading::entry_offset(mem, place);
    Some(Listed {
        kind: reading::kind_from(mem[at]),
        at: at + ENTRY_HEAD,
        size: reading::word_at(mem, at + LENGTH_OFFSET),
    })
}
