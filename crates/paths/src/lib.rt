// Paths: resolving one, and how two of them relate. The definitions are in specs/.
#![tactic(auto)]

pub mod copying;
pub mod giving;
pub mod relating;
pub mod resolving;

// The longest path, as given, resolved, or of a working directory.
pub const MAX_PATH: usize = 1024;

// Room for the components of a working directory and of a path behind them, each after a slash.
const JOINED_BYTES: usize = 2050;

// How one path relates to another.
#[derive(Clone, Copy, PartialEq, Eq)]
pub enum Relation {
    Equal,
    // A prefix of the other, by whole components, and not equal.
    Prefix,
    // The other is a prefix of it, and not equal.
    Extension,
    // Neither, and before or after the other in path order.
    Less,
    Greater,
}

// What the comparison of two paths finds: how one relates to the other, and the number of leading components below the root that both share.
#[derive(Clone, Copy)]
pub struct Comparison {
    pub relation: Relation,
    pub common: usize,
}

// What a call is given: no path, or the path whose bytes are lent beside it.
#[derive(Clone, Copy)]
pub enum Descriptor {
    NoPath,
    Path,
}
