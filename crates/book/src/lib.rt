// The book of one security: who may trade, the sweep, and the calls.
#![tactic(auto)]

mod applying;
mod asking;
pub mod book;
mod changing;
mod eligible;
mod entering;
mod kinds;
pub mod limits;
mod resting;
mod sweeping;
mod types;
