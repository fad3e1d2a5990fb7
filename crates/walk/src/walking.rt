// What a query answers, from a table. Scope, "The walk". The names are the Rust's where a function is.
ghost use Rattle.std.specs.Prelude.{◌≡◌, true, List, ℕ};
ghost use Rattle.paths.specs.Resolving.{is_resolved};
ghost use Rattle.paths.specs.Giving.{query_of};
ghost use Rattle.walk.specs.Walk.{
  state_number,
  mode_of,
  known_mode,
  state_of,
  known_state,
  allowed,
  decided_by,
  is_denied,
  without_match,
  query_desc,
  is_allow_all,
};
ghost use Rattle.walk.specs.Seeing.{
  Meets,
  matches_by,
  partial_by,
  first_of,
  SeesMore,
  settles,
  is_settled,
  Walks,
  Follows,
  Decides,
};

use crate::{AllowPartial, Met, PermissionState, Seen};
use paths::relating::{is_apart, relate};
use paths::resolving::is_resolved;
use paths::{Descriptor, Relation};
use refusals::Refusal;
use table::held::Table;
use table::{
    FLAG_DENIED, FLAG_IGNORED, GRANTED, HAS_FLAG_DENIED, HAS_FLAG_IGNORED, HAS_PROMPT_DENIED, Kind,
    PROMPT_DENIED,
};

// ---- numbers

// The Rust's number of a state.
impl From<PermissionState> for u8 {
    ghost from_gives = { λ state n. n ≡ state_number state };

    fn from(state: PermissionState) -> u8 {
        state as u8
    }
}

// The state that a number names.
impl TryFrom<u32> for PermissionState {
    type Error = Refusal;

    ghost try_from_gives = { λ n r. r ≡ known_state (state_of n) };

    #[tactic(auto, unfolding(crate::specs::Walk::state_of, crate::specs::Walk::known_state))]
    fn try_from(n: u32) -> Result<Self, Refusal> {
        match n {
            0 => Ok(PermissionState::Granted),
            1 => Ok(PermissionState::GrantedPartial),
            2 => Ok(PermissionState::Prompt),
            3 => Ok(PermissionState::Denied),
            4 => Ok(PermissionState::DeniedPartial),
            5 => Ok(PermissionState::Ignored),
            _ => Err(Refusal::UnknownState),
        }
    }
}

// The mode that a number names.
impl TryFrom<u32> for AllowPartial {
    type Error = Refusal;

    ghost try_from_gives = { λ n r. r ≡ known_mode (mode_of n) };

    #[tactic(auto, unfolding(crate::specs::Walk::mode_of, crate::specs::Walk::known_mode))]
    fn try_from(n: u32) -> Result<Self, Refusal> {
        match n {
            0 => Ok(AllowPartial::TreatAsDenied),
            1 => Ok(AllowPartial::TreatAsPartialGranted),
            2 => Ok(AllowPartial::TreatAsGranted),
            _ => Err(Refusal::Unknown),
        }
    }
}

// ---- an entry

// How an entry's path meets q, by one comparison. Where q is in resolved form too, a quick test comes first, and passes over most paths that have
// nothing to do with q.
fn meet(path: &[u8], q: &[u8], resolved: bool) -> Met
    requires { (is_resolved path.now ≡ true) × (resolved ≡ is_resolved q.now) }
    ensures { Meets «path».now q.now result }
{
    if resolved && is_apart(path, q) {
        return Met {
            above: false,
            below: false,
        };
    }
    let relation = relate(path, q).relation;
    Met {
        above: matches!(relation, Relation::Equal | Relation::Prefix),
        below: matches!(relation, Relation::Equal | Relation::Extension),
    }
}

// Whether an entry of a kind matches. P shuts its path and what lies above it, not what lies below.
fn matches(kind: Kind, met: Met) -> bool
    ensures { result ≡ matches_by kind met.above met.below }
{
    if kind == Kind::P {
        met.below
    } else {
        met.above
    }
}

// Whether a partial denial was met, with one entry more: a D or I whose path has prefix q is one.
fn is_partial(partial: bool, kind: Kind, below: bool) -> bool
    ensures { result ≡ partial_by partial kind below }
{
    partial || (matches!(kind, Kind::D | Kind::I) && below)
}

// ---- the walk

// The first match, with one entry more: an earlier one stays.
fn first_of(first: Option<Kind>, kind: Kind, hit: bool) -> Option<Kind>
    ensures { result ≡ first_of first kind hit }
{
    first.or(hit.then_some(kind))
}

// What was seen, with one entry more.
fn with_entry(seen: Seen, kind: Kind, met: Met) -> Seen
    ensures { SeesMore kind met seen result }
{
    Seen {
        first: first_of(seen.first, kind, matches(kind, met)),
        partial: is_partial(seen.partial, kind, met.below),
    }
}

// Whether a match of a kind settles the state, whatever comes later.
fn settles(kind: Kind, mode: AllowPartial, partial: bool) -> bool
    ensures { result ≡ settles kind mode partial }
{
    kind != Kind::G || mode == AllowPartial::TreatAsGranted || partial
}

// Whether no later entry can change the state.
fn is_settled(seen: Seen, mode: AllowPartial) -> bool
    ensures { result ≡ is_settled seen.first mode seen.partial }
{
    seen.first
        .is_some_and(|kind| settles(kind, mode, seen.partial))
}

// The entries in list order, each read once, until the state is settled.
fn walk(table: &Table<'_>, mode: AllowPartial, q: &[u8]) -> Seen
    ensures { Walks table.now.entries mode q.now result }
{
    let resolved = is_resolved(q);
    let mut seen = Seen {
        first: None,
        partial: false,
    };
    for entry in table.entries() {
        let met = meet(entry.path, q, resolved);
        if met.above | met.below {
            seen = with_entry(seen, entry.kind, met);
            if is_settled(seen, mode) {
                return seen;
            }
        }
    }
    seen
}

// What was seen of the entries or, with no path, of the marks.
fn see(table: &Table<'_>, mode: AllowPartial, d: Descriptor, q: &[u8]) -> Seen
    ensures { Decides table.now mode (query_of d q.now) result }
{
    match d {
        Descriptor::NoPath => Seen {
            first: None,
            partial: table.has_mark(HAS_FLAG_DENIED) || table.has_mark(HAS_FLAG_IGNORED),
        },
        Descriptor::Path => walk(table, mode, q),
    }
}

// ---- the state

// The state of what is allowed, by whether it is partial and what the mode makes of that.
#[tactic(auto, unfolding(crate::specs::Walk::allowed))]
fn query_allowed_desc(partial: bool, mode: AllowPartial) -> PermissionState
    ensures { result ≡ allowed partial mode }
{
    match (partial, mode) {
        (true, AllowPartial::TreatAsDenied) => PermissionState::DeniedPartial,
        (true, AllowPartial::TreatAsPartialGranted) => PermissionState::GrantedPartial,
        _ => PermissionState::Granted,
    }
}

// What a match of a kind decides.
#[tactic(auto, unfolding(crate::specs::Walk::decided_by))]
fn decided_by(kind: Kind, state: PermissionState) -> PermissionState
    ensures { result ≡ decided_by kind state }
{
    match kind {
        Kind::G => state,
        Kind::D | Kind::P => PermissionState::Denied,
        Kind::I => PermissionState::Ignored,
    }
}

// Whether what no entry decides is denied. With no path, a denial at the prompt counts too, of all or of any path.
#[tactic(auto, unfolding(crate::specs::Walk::is_denied, paths::specs::Giving::query_of))]
fn is_denied(table: &Table<'_>, d: Descriptor) -> bool
    ensures { (q : List ℕ) → result ≡ is_denied table.now (query_of d q) }
{
    table.has_switch(FLAG_DENIED)
        || match d {
            Descriptor::NoPath => {
                table.has_switch(PROMPT_DENIED) || table.has_mark(HAS_PROMPT_DENIED)
            }
            Descriptor::Path => false,
        }
}

// The state where no entry decides.
#[tactic(auto, unfolding(crate::specs::Walk::without_match, crate::specs::Walk::is_denied_mode))]
fn without_match(
    table: &Table<'_>,
    mode: AllowPartial,
    d: Descriptor,
    partial: bool,
) -> PermissionState
    ensures { (q : List ℕ) → result ≡ without_match table.now mode (query_of d q) partial }
{
    if table.has_switch(FLAG_IGNORED) {
        PermissionState::Ignored
    } else if partial && mode == AllowPartial::TreatAsDenied {
        PermissionState::DeniedPartial
    } else if is_denied(table, d) {
        PermissionState::Denied
    } else if table.has_switch(GRANTED) {
        query_allowed_desc(partial, mode)
    } else {
        PermissionState::Prompt
    }
}

// The state that follows from what was seen, the switches and the marks.
#[tactic(auto, unfolding(crate::specs::Seeing::kind_of_match, crate::specs::Walk::by_match))]
fn state_from(table: &Table<'_>, mode: AllowPartial, d: Descriptor, seen: Seen) -> PermissionState
    ensures { (q : List ℕ) → Follows table.now mode (query_of d q) seen result }
{
    match seen.first {
        None => without_match(table, mode, d, seen.partial),
        Some(kind) => decided_by(kind, query_allowed_desc(seen.partial, mode)),
    }
}

// What a query answers; with no path the walk is skipped.
pub fn query_desc(table: &Table<'_>, mode: AllowPartial, d: Descriptor, q: &[u8]) -> PermissionState
    ensures { result ≡ query_desc table.now mode (query_of d q.now) }
{
    state_from(table, mode, d, see(table, mode, d, q))
}

// Whether every query is granted: switch 1 alone of 1, 2, 4, 8 is set, and no mark is.
#[tactic(auto, unfolding(crate::specs::Walk::is_allow_all))]
pub fn is_allow_all(table: &Table<'_>) -> bool
    ensures { result ≡ is_allow_all table.now }
{
    table.has_switch(GRANTED)
        && !table.has_switch(FLAG_DENIED)
        && !table.has_switch(FLAG_IGNORED)
        && !table.has_switch(PROMPT_DENIED)
        && table.marks() == 0
}
