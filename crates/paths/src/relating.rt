// How two paths relate and how many components they share, in one pass over both, component by component and byte by byte.
ghost use Rattle.std.specs.Prelude.{◌≡◌, ◌+◌, ◌≤◌, length, drop};
ghost use Rattle.paths.specs.Relations.{is_prefix, comparison};
ghost use Rattle.paths.specs.Relating.{rank_of, Begins, same_eight, TellsApart};

use crate::{Comparison, Relation};

// How the byte at i compares inside a component: 0 where the component ends, and else one more than the byte.
#[tactic(auto, using(crate::proofs::RelatingLaws::ranks))]
fn rank(p: &[u8], i: usize) -> usize
    ensures { result ≡ rank_of (drop i p.now) }
{
    match p.get(i) {
        None | Some(b'/') => 0,
        Some(b) => usize::from(*b) + 1,
    }
}

// Where the next component begins, from i on, or the end of the path.
#[tactic(auto, using(crate::proofs::RelatingLaws::slashes))]
fn next_component(p: &[u8], i: usize) -> usize
    requires { i ≤ length p.now }
    ensures { Begins p.now i result }
{
    for at in i..p.len() {
        if p[at] != b'/' {
            return at;
        }
    }
    p.len()
}

// How p relates to q, the same components, those of one at the start of the other's, and else by path order; and how many leading components they
// share. Each turn of the outer loop is over one component of both, each turn of the inner one over one byte of it.
#[tactic(auto, using(crate::proofs::RelatingLaws::between))]
pub fn relate(p: &[u8], q: &[u8]) -> Comparison
    ensures { result ≡ comparison p.now q.now }
{
    let mut common: usize = 0;
    let mut i = 0;
    let mut j = 0;
    // no `for`: where the next components begin is found in this turn
    'components: loop {
        i = next_component(p, i);
        j = next_component(q, j);
        if i == p.len() {
            let relation = if j == q.len() {
                Relation::Equal
            } else {
                Relation::Prefix
            };
            return Comparison { relation, common };
        }
        if j == q.len() {
            return Comparison {
                relation: Relation::Extension,
                common,
            };
        }
        // where in p the first of the two paths ends
        let end = i + (p.len() - i).min(q.len() - j);
        // by index: measured, `position` over both paths zipped is slower
        loop {
            if i == end {
                // one path ends: the component of the other must end with it
                if rank(p, i) != rank(q, j) {
                    break 'components;
                }
                break;
            }
            if p[i] != q[j] {
                break 'components;
            }
            if p[i] == b'/' {
                break;
            }
            i += 1;
            j += 1;
        }
        // both have this component, whole
        common += 1;
    }
    let relation = if rank(p, i) < rank(q, j) {
        Relation::Less
    } else {
        Relation::Greater
    };
    Comparison { relation, common }
}

// Whether p is a prefix of q, by whole components.
#[tactic(auto, using(crate::proofs::RelationLaws::prefixes))]
pub fn is_prefix(p: &[u8], q: &[u8]) -> bool
    ensures { result ≡ is_prefix p.now q.now }
{
    matches!(relate(p, q).relation, Relation::Equal | Relation::Prefix)
}

// Whether the eight bytes from i on are the same in both. `&` and no `all`: with no branch between them they are compared at once.
fn same_eight(p: &[u8], q: &[u8], i: usize) -> bool
    requires { (i + 8 ≤ length p.now) × (i + 8 ≤ length q.now) }
    ensures { result ≡ same_eight p.now q.now i }
{
    p[i..i + 8]
        .iter()
        .zip(&q[i..i + 8])
        .fold(true, |all, (a, b)| all & (*a == *b))
}

// Whether a quick test finds that of two resolved paths neither is a prefix of the other: a byte that both have is not the same. From the end of the
// shorter path it goes towards the start, where paths are likely to be alike, eight bytes at a time; the first up to seven are not looked at.
#[tactic(auto, using(crate::proofs::ApartLaws::eights))]
pub fn is_apart(p: &[u8], q: &[u8]) -> bool
    ensures { TellsApart p.now q.now result }
{
    let mut n = p.len().min(q.len());
    // by index: ranges that go down by eight compile to more per turn
    while n >= 8 {
        n -= 8;
        if !same_eight(p, q, n) {
            return true;
        }
    }
    false
}
