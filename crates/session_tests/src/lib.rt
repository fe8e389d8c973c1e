// Tests of whole sessions and of the book's calls on examples.
#![tactic(auto)]

#[cfg(test)]
mod calls;
#[cfg(test)]
mod sweeps;
