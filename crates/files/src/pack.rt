// Packing lines of text into a session file, one body a line, whatever the lines hold.
ghost use Rattle.std.specs.Prelude.{◌≡◌, ◌+◌, ◌*◌, ◌<◌, ◌≤◌, ◌++◌, length, take, drop, IfOk};
ghost use Rattle.files.specs.Written.{short, contents, layout};
ghost use Rattle.files.specs.Packing.{lines_in, unparted, packed, output_after};

use crate::cursors::Lines;
use crate::types::PackError;

// How many lines a text has, and how many bytes without their line feeds.
#[derive(Clone, Copy)]
struct Extent {
    lines: usize,
    bytes: usize,
}

#[tactic(auto, using(crate::proofs::Packing::lines_few))]
fn measure(text: &[u8]) -> Extent
    ensures lines { result.lines ≡ length (lines_in text.now) }
    ensures bytes { result.bytes ≡ length (unparted text.now) }
    ensures within { result.bytes ≤ length text.now }
{
    let mut extent = Extent { lines: 0, bytes: 0 };
    for line in Lines::of(text) {
        extent.lines += 1;
        extent.bytes += line.len();
    }
    extent
}

// Writes bytes into the output, from a place on.
fn write_at(out: &mut [u8], at: usize, bytes: &[u8])
    requires { at + length bytes.now ≤ length out.old }
    ensures stands { take (at + length bytes.now) out.new ≡ take at out.old ++ bytes.now }
    ensures behind { drop (at + length bytes.now) out.new ≡ drop (at + length bytes.now) out.old }
{
    out[at..at + bytes.len()].copy_from_slice(bytes);
}

// Writes a number of 16 bits, low byte first.
fn write_short(out: &mut [u8], at: usize, n: u16)
    requires { at + 1 < length out.old }
    ensures stands { take (at + 2) out.new ≡ take at out.old ++ short n }
    ensures behind { drop (at + 2) out.new ≡ drop (at + 2) out.old }
{
    write_at(out, at, &n.to_le_bytes());
}

// Writes the entry of each line, the first of which begins at `first`.
fn write_contents(out: &mut [u8], text: &[u8], first: usize)
    requires room { 2 + 4 * length (lines_in text.now) ≤ length out.old }
    requires within { first + length (unparted text.now) ≤ 65535 }
    ensures stands { take (2 + 4 * length (lines_in text.now)) out.new ≡ take 2 out.old ++ contents first (lines_in text.now) }
    ensures behind { drop (2 + 4 * length (lines_in text.now)) out.new ≡ drop (2 + 4 * length (lines_in text.now)) out.old }
{
    // By place, since a proof does not know what is written through a zip with `chunks_exact_mut`.
    let mut place = 2;
    let mut next = first;
    for line in Lines::of(text) {
        write_short(out, place, next as u16);
        write_short(out, place + 2, line.len() as u16);
        place += 4;
        next += line.len();
    }
}

// Writes the lines themselves, one behind the other from `first` on.
fn write_bodies(out: &mut [u8], text: &[u8], first: usize)
    requires { first + length (unparted text.now) ≤ length out.old }
    ensures stands { take (first + length (unparted text.now)) out.new ≡ take first out.old ++ unparted text.now }
    ensures behind { drop (first + length (unparted text.now)) out.new ≡ drop (first + length (unparted text.now)) out.old }
{
    let mut next = first;
    for line in Lines::of(text) {
        write_at(out, next, line);
        next += line.len();
    }
}

// Packs the lines of a text into a session file, and answers how many bytes it has. What the
// output held behind them stays.
#[tactic(auto, using(crate::proofs::Packing::length_layout))]
pub fn pack(text: &[u8], out: &mut [u8]) -> Result<usize, PackError>
    ensures value { result ≡ packed (lines_in text.now) (length out.old) }
    ensures after { out.new ≡ output_after (lines_in text.now) out.old result }
    ensures within { IfOk result (λ n. n ≤ length out.old) }
{
    let extent = measure(text);
    if extent.lines > 512 {
        return Err(PackError::TooManyLines);
    }
    let first = 2 + 4 * extent.lines;
    let size = first + extent.bytes;
    if size > 65535 {
        return Err(PackError::TooLarge);
    }
    if out.len() < size {
        return Err(PackError::NoRoom);
    }
    write_short(out, 0, extent.lines as u16);
    write_contents(out, text, first);
    write_bodies(out, text, first);
    Ok(size)
}
