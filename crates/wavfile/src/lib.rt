// The dropouts of a WAV file, repaired into another: a whole file in memory, the scan of its samples at its own
// rate, the file that is written back, and the report of it. Whatever is turned away is named in one line on
// standard error, and then nothing is written to the other file.
#![tactic(auto)]

mod bytes;
mod files;
mod report;
mod say;
mod scan;

ghost use Rattle.std.specs.Prelude.{◌≡◌, ◌≤◌, length, IfOk};
ghost use Rattle.wavfile.specs.Program.{most_input, most_name};

use bytes::repair_bytes;
pub use files::load_file;
use files::save_file;
use inpaint::Scanned;
use recording::Answer;
use report::print_report;
use say::say_refused;
pub use say::{say_error, say_usage};
use std::io;
use std::io::Write;
use std::rt::Files;

// The most samples that are taken: 5.4 s at 48,000 a second.
pub const MOST_SAMPLES: usize = 262_144;

// The bytes of the largest file that is taken: those of the most samples, and 131,072 for all else.
pub const MOST_BYTES: usize = 655_360;

// What the repair of a file in memory gives: how the writing of the repaired one ended, with the bytes of the file
// that stands there now; how many samples there are, at which rate; and what the scan counted. The answer stands
// beside the figures, since `tells_all`, which the promise cites, tells them also where the writing is refused.
#[derive(Clone, Copy)]
struct Repaired {
    written: Answer,
    samples: usize,
    rate: u32,
    scanned: Scanned,
}

// Saves the repaired file, which stands in the first bytes of the space, under the name `to`, and then writes the
// report, of the first places of the rooms; or says why it was not written.
fn save_and_report<R: Files + Print, W: Write>(
    rt: &R,
    said: &mut W,
    to: &[u8],
    repaired: Repaired,
    space: &[u8],
    marks: &[u8],
    orders: &[u32],
) -> io::Result<()>
    requires { (length to.now ≤ most_name)
        × IfOk repaired.written (λ size. (size ≤ length space.now) × (repaired.samples ≤ length marks.now)
        × (repaired.samples ≤ length orders.now)) }
{
    match repaired.written {
        Ok(size) => {
            if !save_file(rt, said, to, &space[..size]) {
                return Ok(());
            }
            let marks = &marks[..repaired.samples];
            let orders = &orders[..repaired.samples];
            let mut out = io::writer(rt);
            print_report(&mut out, repaired.rate, repaired.scanned, marks, orders)
        }
        Err(why) => {
            say_refused(said, why);
            Ok(())
        }
    }
}

// Repairs the file that stands in the first n bytes of the space, saves what comes of it under the name `to`, and
// then writes the report; or says why not. The rooms are for samples, marks and the orders of the models: they stay
// apart, since the definitions that the promises quote (`tells_first`) take them one by one.
fn repair_to<R: Files + Print, W: Write>(
    rt: &R,
    said: &mut W,
    space: &mut [u8],
    n: usize,
    to: &[u8],
    samples: &mut [u32],
    marks: &mut [u8],
    orders: &mut [u32],
) -> io::Result<()>
    requires { (n ≤ length space.old) × (length to.now ≤ most_name) × (length samples.old ≤ most_input)
        × (length orders.old ≡ length samples.old) }
{
    match repair_bytes(space, n, samples, marks, orders) {
        Ok(repaired) => save_and_report(rt, said, to, repaired, space, marks, orders),
        Err(why) => {
            say_refused(said, why);
            Ok(())
        }
    }
}

// Does so with rooms of its own.
fn repair_loaded<R: Files + Print, W: Write>(
    rt: &R,
    said: &mut W,
    space: &mut [u8],
    n: usize,
    to: &[u8],
) -> io::Result<()>
    requires { (n ≤ length space.old) × (length to.now ≤ most_name) }
{
    let mut samples = [0u32; MOST_SAMPLES];
    let mut marks = [0u8; MOST_SAMPLES];
    let mut orders = [0u32; MOST_SAMPLES];
    repair_to(
        rt,
        said,
        space,
        n,
        to,
        &mut samples,
        &mut marks,
        &mut orders,
    )
}

// Repairs the dropouts of the WAV file of one name into that of the other, which may be the same, and writes the
// report to standard output. A name has at most 4,096 bytes. An error is one of the report's writing.
pub fn repair_file<R: Files + Print, W: Write>(
    rt: &R,
    said: &mut W,
    from: &[u8],
    to: &[u8],
) -> io::Result<()>
    requires { length to.now ≤ most_name }
{
    let mut space = [0u8; MOST_BYTES];
    let Some(n) = load_file(rt, said, from, &mut space) else {
        return Ok(());
    };
    repair_loaded(rt, said, &mut space, n, to)
}
