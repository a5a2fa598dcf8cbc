// Reading from a reader to the start of a space that is lent.
#![tactic(auto)]

ghost use Rattle.std.specs.Prelude.{◌≡◌, ◌+◌, ◌<◌, ◌≤◌, length, take, drop, IfOk};
ghost use Rattle.std.specs.Io.KnownBytes.{Consumes, IsAtEnd};

use std::io;
use std::io::Read;

// One read, to the space from `at` on.
fn read_at<R: Read>(reader: &mut R, space: &mut [u8], at: usize) -> io::Result<usize>
    requires { at < length space.old }
    ensures front { take at space.new ≡ take at space.old }
    ensures within { IfOk result (λ n. at + n ≤ length space.new) }
    ensures bytes { IfOk result (λ n. Consumes (R.remaining reader.old) (R.remaining reader.new)
        (take n (drop at space.new))) }
    ensures end { IfOk result (λ n. n ≡ 0 → IsAtEnd (R.remaining reader.new)) }
{
    reader.read(&mut space[at..])
}

// Reads until the space is full or the input ends, and says how many bytes that gave. They stand at the
// start of the space. A reader's own `read_exact` refuses an input that ends early, and `read_to_end` needs
// a Vec where the space is lent; how many reads it takes is not known, so that a `while` asks.
pub fn read_full<R: Read>(reader: &mut R, space: &mut [u8]) -> io::Result<usize>
    ensures within { IfOk result (λ n. n ≤ length space.new) }
    ensures bytes { IfOk result
        (λ n. Consumes (R.remaining reader.old) (R.remaining reader.new) (take n space.new)) }
    ensures end { IfOk result (λ n. n < length space.new → IsAtEnd (R.remaining reader.new)) }
{
    let mut done: usize = 0;
    while done < space.len() {
        let n = read_at(reader, space, done)?;
        if n == 0 {
            break;
        }
        done += n;
    }
    Ok(done)
}
