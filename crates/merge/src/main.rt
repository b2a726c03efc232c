// Merges two streams over a table: one frame from standard input, one line to standard output.
#![tactic(auto)]

ghost use Rattle.std.specs.Prelude.{◌≤◌, length, IfOk};

use std::io;
use std::io::{Print, Read};

// Reads until the buffer is full or the input ends, and tells how many bytes it put at the buffer's start. How many one read brings is not known
// before, so there is nothing to count over.
fn read_full(input: &mut impl Read, buf: &mut [u8]) -> io::Result<usize>
    ensures { IfOk result (λ n. n ≤ length buf.new) }
{
    let mut done = 0;
    while done < buf.len() {
        let n = input.read(&mut buf[done..])?;
        if n == 0 {
            break;
        }
        done += n;
    }
    Ok(done)
}

// The buffer is one byte longer than the longest input, so that more is noticed. Both are arrays: the program takes no heap either.
fn main(rt: HostRuntime) -> io::Result<()> {
    let mut input = [0u8; 65537];
    let mut line = [0u8; 65560];
    let n = read_full(&mut rt.stdin(), &mut input)?;
    let m = merge_line::line(&input[..n], &mut line);
    rt.write_all(&line[..m])
}
