// The comparison of an old and a new entry: `Less` where the old one comes before, `Greater` where it comes after, `Equal` where they are equal.
ghost use Rattle.std.specs.Prelude.{◌≡◌};
ghost use Rattle.table.specs.Entries.{is_granted, kind_precedence, compare_alike, granted_order, compare, order_number};

use crate::Kind;
use paths::Relation;
use paths::relating::relate;
use std::cmp::Ordering;

// Whether entries of a kind grant.
pub fn is_granted(kind: Kind) -> bool
    ensures { result ≡ is_granted kind }
{
    kind == Kind::G
}

// The rank of a kind among entries with one path, which is not its number.
fn kind_precedence(kind: Kind) -> u8
    ensures { result ≡ kind_precedence kind }
{
    match kind {
        Kind::D => 0,
        Kind::P => 1,
        Kind::I => 2,
        Kind::G => 3,
    }
}

// A grant with a grant, or two of the other kinds.
fn compare_alike(old: Kind, old_path: &[u8], new: Kind, new_path: &[u8]) -> Ordering
    ensures { order_number result ≡ compare_alike (record { kind = old; path = old_path.now }) (record { kind = new; path = new_path.now }) }
{
    match relate(old_path, new_path).relation {
        Relation::Equal => kind_precedence(old).cmp(&kind_precedence(new)),
        Relation::Extension | Relation::Less => Ordering::Less,
        Relation::Prefix | Relation::Greater => Ordering::Greater,
    }
}

// The path of a grant, as the old entry, with that of an entry of another kind.
fn compare_granted(old_path: &[u8], new_path: &[u8]) -> Ordering
    ensures { order_number result ≡ granted_order old_path.now new_path.now }
{
    if relate(old_path, new_path).relation == Relation::Extension {
        Ordering::Less
    } else {
        Ordering::Greater
    }
}

// An old entry with a new one.
pub(crate) fn compare(old: Kind, old_path: &[u8], new: Kind, new_path: &[u8]) -> Ordering
    ensures { order_number result ≡ compare (record { kind = old; path = old_path.now }) (record { kind = new; path = new_path.now }) }
{
    match (is_granted(old), is_granted(new)) {
        (true, false) => compare_granted(old_path, new_path),
        (false, true) => compare_granted(new_path, old_path).reverse(),
        _ => compare_alike(old, old_path, new, new_path),
    }
}
