// The bench: reads a call sheet from standard input and writes what it prints.
// One byte more than the longest good sheet is read, so that a longer one is seen to be so.
#![tactic(auto)]

ghost use Rattle.std.specs.Prelude.{◌≡◌, ◌⊎◌, ◌≤◌, IfOk, length, take};
ghost use Rattle.std.specs.Io.KnownBytes.{Consumes, IsAtEnd};

use std::io::{self, Read, Write};

// Fills the buffer as far as the input goes, and says how far. Each read gives a byte at least, or there are no more.
fn read_full<R: Read>(input: &mut R, buffer: &mut [u8]) -> io::Result<usize>
    ensures within { IfOk result (λ n. n ≤ length buffer.old) }
    ensures bytes { IfOk result (λ n. Consumes (R.remaining input.old) (R.remaining input.new) (take n buffer.new)) }
    ensures all { IfOk result (λ n. (n ≡ length buffer.old) ⊎ IsAtEnd (R.remaining input.new)) }
{
    let mut n = 0;
    // So many reads at most, and no `loop`: so it ends.
    for _ in 0..buffer.len() {
        let more = input.read(&mut buffer[n..])?;
        if more == 0 {
            return Ok(n);
        }
        n += more;
    }
    Ok(n)
}

fn main(rt: HostRuntime) -> io::Result<()> {
    let mut buffer = [0u8; contents::MOST_BYTES + 1];
    let n = read_full(&mut rt.stdin(), &mut buffer)?;
    let page = sheet::run(&buffer[..n]);
    rt.stdout().write_all(page.as_slice())
}
