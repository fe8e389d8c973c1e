// Running a session file to its listing, for any ranking and board, for the program and for the C host.
#![tactic(auto)]

mod listing;
pub mod running;
