// What a program reads of its input.

#![tactic(auto)]

ghost use Rattle.std.specs.Prelude.{◌≡◌, ◌≤◌, IfOk, IfSome, length, take};

use std::io;
use std::io::Read;

// Reads until buf is full or the input ends, and returns how many bytes it put at the start of buf: where the input's bytes are known,
// all that buf has room for. The place is counted here, since the library's `read_to_end` fills a Vec, and a file's bytes go into a fixed
// array.
pub fn read_full<R: Read>(input: &mut R, buf: &mut [u8]) -> io::Result<usize>
    ensures upper_bound { IfOk result (λ n. n ≤ length buf.new) }
    ensures bytes { IfOk result (λ n. IfSome (R.remaining input.old) (λ xs. take n buf.new ≡ take (length buf.new) xs)) }
{
    let mut done = 0;
    // The range bounds the reads, so that the loop ends whatever the input does.
    for _ in 0..u64::MAX {
        if buf.len() <= done {
            break;
        }
        let n = input.read(&mut buf[done..])?;
        if n == 0 {
            break;
        }
        done += n;
    }
    Ok(done)
}
