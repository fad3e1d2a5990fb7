// What the calls answer, as the numbers that C gets; and check, request, revoke and child as the exports make them. The definitions are in specs/, with the promise of every export.
#![tactic(auto)]

pub mod calling;
pub mod numbers;
