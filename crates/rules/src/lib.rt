// Orders, rankings, and the rules by which orders trade: the types that calls speak of, and in
// specs/ what each call gives.
#![tactic(auto)]

pub mod ranking;
pub mod types;
