// What a query answers. The definitions are in specs/.
#![tactic(auto)]

use table::Kind;

pub mod querying;
pub mod walking;

// The answer of a query, with the Rust's names in the Rust's order.
#[derive(Clone, Copy, PartialEq, Eq)]
pub enum PermissionState {
    Granted,
    GrantedPartial,
    Prompt,
    Denied,
    DeniedPartial,
    Ignored,
}

// The mode of a query, with the Rust's names: the scope's modes denied, partial and granted, in its order.
#[derive(Clone, Copy, PartialEq, Eq)]
pub enum AllowPartial {
    TreatAsDenied,
    TreatAsPartialGranted,
    TreatAsGranted,
}

// What one comparison tells of an entry's path: whether it is a prefix of the query's, and whether that is a prefix of it.
#[derive(Clone, Copy)]
pub(crate) struct Met {
    pub above: bool,
    pub below: bool,
}

// What was seen of the entries read so far: the kind of the first match, if there is one, and whether a partial denial was met.
#[derive(Clone, Copy)]
pub(crate) struct Seen {
    pub first: Option<Kind>,
    pub partial: bool,
}
