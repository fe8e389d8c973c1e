// Session files: reading one, and packing one of lines of text.
#![tactic(auto)]

mod bodies;
mod contents;
mod cursors;
mod fields;
pub mod input;
pub mod pack;
pub mod reading;
pub mod types;

pub use reading::{body_at, check_file};
