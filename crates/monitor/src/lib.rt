// What the monitor's programs share: standard input read to its end, the scan of a recording that was opened,
// with what it needs, and the lines that tell of it.
#![tactic(auto)]

ghost use Rattle.std.specs.Prelude.{◌≡◌, length};
ghost use Rattle.inpaint.specs.Auto.{scan, refused_number};
ghost use Rattle.monitor.specs.Reading.{HasAll, Within};
ghost use Rattle.monitor.specs.Scanning.{scanning, scanning_orders};
ghost use Rattle.recording.specs.Lent.{held, SameMemory};

use inpaint::Scanned;
use inpaint::auto::{HELD_RUN, inpaint_auto};
use intake::read_full;
use recording::Recording;
use recording::marks::Mark;
use std::io;
use std::io::{Read, Write};

// The most samples that are taken.
pub const MOST_SAMPLES: usize = 4096;

// The counts of the blocks that so many samples make.
pub const MOST_BLOCKS: usize = 16;

// What the journal holds, which always suffices, and the workspace, likewise.
pub const JOURNAL_WORDS: usize = 12_800;

pub const WORKSPACE: usize = 4_788;

// The samples of a second, and the longest dropout that is repaired, in milliseconds.
const RATE: u32 = 48_000;

const LIMIT_MS: f32 = 1.0;

// Reads standard input to its end, to the start of the space, and says how many bytes it has. Where a further byte
// comes once the space is full, or the reading fails, the input is turned away, by None.
pub fn read_input<R: Read>(reader: &mut R, space: &mut [u8]) -> Option<usize>
    ensures within { Within result space.new }
    ensures whole { HasAll (R.remaining reader.old) result space.new }
{
    let n = read_full(reader, space).ok()?;
    match read_full(reader, &mut [0u8; 1]) {
        Ok(0) => Some(n),
        _ => None,
    }
}

// Writes that the input is turned away.
pub fn print_bad_input<W: Write>(out: &mut W) -> io::Result<()> {
    writeln!(out, "bad input")
}

// Repairs the dropouts within the limit of a recording that was opened, where 16 equal words are one, and notes
// the orders of the models.
pub fn scan_recording(recording: &mut Recording, work: &mut [f64], orders: &mut [u32]) -> Scanned
    ensures memory { SameMemory recording.old recording.new }
    ensures rule { (scan result.qualified result.repaired (refused_number result.refused) (held recording.new) work.new
        ≡ scanning work.old (held recording.old))
        × (orders.new ≡ scanning_orders work.old (held recording.old) orders.old) }
{
    inpaint_auto(recording, RATE, LIMIT_MS, HELD_RUN, work, orders)
}

// Writes the line of a sample: its place, its mark and its word, and the model's order where a model made it.
fn print_sample<W: Write>(
    out: &mut W,
    place: usize,
    mark: u8,
    word: u32,
    order: u32,
) -> io::Result<()> {
    write!(out, "{place} {mark} {word:08x}")?;
    if mark == Mark::GapByModel as u8 {
        write!(out, " {order}")?;
    }
    writeln!(out)
}

// Writes a line for each sample that is not measured. Samples, marks and orders stay apart, since the definition that
// the promises quote (`report`) takes them one by one.
fn print_made<W: Write>(
    out: &mut W,
    samples: &[u32],
    marks: &[u8],
    orders: &[u32],
) -> io::Result<()>
    requires { (length marks.now ≡ length samples.now) × (length orders.now ≡ length samples.now) }
{
    for place in 0..samples.len() {
        if marks[place] != Mark::Measured as u8 {
            print_sample(out, place, marks[place], samples[place], orders[place])?;
        }
    }
    Ok(())
}

// Writes what the scan gave, what it made, and that this is the end.
pub fn print_scan<W: Write>(
    out: &mut W,
    scanned: Scanned,
    samples: &[u32],
    marks: &[u8],
    orders: &[u32],
) -> io::Result<()>
    requires { (length marks.now ≡ length samples.now) × (length orders.now ≡ length samples.now) }
{
    let Scanned {
        qualified,
        repaired,
        ..
    } = scanned;
    let refused = scanned.refused_number();
    writeln!(
        out,
        "qualified {qualified} repaired {repaired} refused {refused}"
    )?;
    print_made(out, samples, marks, orders)?;
    writeln!(out, "end")
}
