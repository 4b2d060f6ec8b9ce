// Reading input into a lent buffer.
#![tactic(auto)]

ghost use Rattle.std.specs.Prelude.{◌≤◌, length, IfOk, IfErr};

use std::io::Read;

// Reads until the input ends, a read fails or the buffer is full, and returns how many bytes it put at the start: `Ok` if and only
// if the input ended there.
pub fn read_all<R: Read>(from: &mut R, buf: &mut [u8]) -> Result<usize, usize>
    ensures whole { IfOk result (λ n. n ≤ length buf.new) }
    ensures part { IfErr result (λ n. n ≤ length buf.new) }
{
    let mut done = 0;
    // a read gives as many bytes as it likes
    while done < buf.len() {
        match from.read(&mut buf[done..]) {
            Ok(0) => return Ok(done),
            Ok(more) => done += more,
            Err(_) => break,
        }
    }
    Err(done)
}
