// Plays the session file on standard input, over size-time and a board without a quotation, and
// prints its listing, or the line of the refusal.
#![tactic(auto)]

use files::input::{INPUT_BYTES, read_input};
use session::running::{LISTING_BYTES, print_session};
use std::io::Write;

fn play(rt: &HostRuntime) -> anyhow::Result<()> {
    let mut file = [0u8; INPUT_BYTES];
    let mut page = [0u8; LISTING_BYTES];
    let used = read_input(&mut rt.stdin(), &mut file)?;
    let length = print_session(&file[..used], &mut page);
    rt.stdout().write_all(&page[..length])?;
    Ok(())
}

fn main(rt: HostRuntime) -> anyhow::Result<()> {
    play(&rt)
}
