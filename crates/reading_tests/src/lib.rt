// Session files that are damaged in one way each, with the refusal of each worked out by hand.
#![tactic(auto)]

#[cfg(test)]
mod damaged;
