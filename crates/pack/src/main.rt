// Packs lines of text from standard input, one body a line, into a session file on standard output.
#![tactic(auto)]

use files::input::{INPUT_BYTES, read_input};
use files::pack::pack;
use std::io::Write;

fn main(rt: HostRuntime) -> anyhow::Result<()> {
    let mut text = [0u8; INPUT_BYTES];
    let mut file = [0u8; INPUT_BYTES];
    let used = read_input(&mut rt.stdin(), &mut text)?;
    let size = pack(&text[..used], &mut file)?;
    rt.stdout().write_all(&file[..size])?;
    Ok(())
}
