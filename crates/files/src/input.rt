// Reading the input of a program into a buffer.
ghost use Rattle.std.specs.Prelude.{◌<◌, ◌≤◌, length, take, IfOk};
ghost use Rattle.std.specs.Io.KnownBytes.{Consumes, IsAtEnd};

use std::io;
use std::io::Read;

// The bytes that a program reads: a file that fills the buffer is too large to be a session, so no
// more of it is read.
pub const INPUT_BYTES: usize = 65_536;

// Reads until the input ends or the buffer is full, and answers how many bytes were read.
pub fn read_input<R: Read>(input: &mut R, buffer: &mut [u8]) -> io::Result<usize>
    ensures fits { IfOk result (λ n. n ≤ length buffer.old) }
    ensures bytes { IfOk result (λ n. Consumes (R.remaining input.old) (R.remaining input.new) (take n buffer.new)) }
    ensures end { IfOk result (λ n. n < length buffer.old → IsAtEnd (R.remaining input.new)) }
{
    let mut used = 0;
    // By hand, since std's `read_exact` fails on a short input and `read_to_end` needs a heap.
    while used < buffer.len() {
        let n = input.read(&mut buffer[used..])?;
        if n == 0 {
            break;
        }
        used += n;
    }
    Ok(used)
}
