// A WAV file in memory, repaired: it is read, its samples are scanned, and the file of the result takes its place.
ghost use Rattle.std.specs.Prelude.{◌≡◌, ◌≤◌, length};
ghost use Rattle.riff.specs.Wav.{answer_of, rate_of, heard};
ghost use Rattle.wavfile.specs.Program.{most_input, taken, rewritten, told, tells_all, tells_first};

use super::Repaired;
use super::scan::{LIMIT_MS, scan_samples};
use inpaint::auto::settings_allowed;
use recording::Reason;
use riff::WavRead;
use riff::read::read_wav;
use riff::write::write_wav;

// Reads the file into the two rooms, and turns a rate away that the scan would turn away, by 4 as it does.
fn take_wav(file: &[u8], samples: &mut [u32], marks: &mut [u8]) -> Result<WavRead, Reason>
    ensures { heard (answer_of result) (rate_of result) samples.new marks.new
        ≡ taken file.now samples.old marks.old }
{
    let read = read_wav(file, samples, marks)?;
    if settings_allowed(read.rate, LIMIT_MS) {
        Ok(read)
    } else {
        Err(Reason::Setting)
    }
}

// Scans all samples at this rate and writes the file of what the scan leaves to the first bytes of the space. Samples,
// marks and orders stay apart, since the definitions that the promises quote (`reported`, `tells_all`) take them one by
// one.
fn repair_samples(
    samples: &mut [u32],
    marks: &mut [u8],
    orders: &mut [u32],
    rate: u32,
    space: &mut [u8],
) -> Repaired
    requires { length samples.old ≤ most_input }
    ensures { tells_all result samples.new marks.new orders.new space.new
        ≡ rewritten rate samples.old marks.old orders.old space.old }
{
    let count = samples.len();
    let scanned = scan_samples(samples, marks, orders, rate);
    let written = write_wav(samples, rate, space);
    Repaired {
        written,
        samples: count,
        rate,
        scanned,
    }
}

// Repairs the file that stands in the first n bytes of the space. The file of the result stands there then, and
// the samples, their marks and the orders of the models in the first places of their rooms. Where the file is
// turned away, nothing is scanned and the space stays as it was.
pub fn repair_bytes(
    space: &mut [u8],
    n: usize,
    samples: &mut [u32],
    marks: &mut [u8],
    orders: &mut [u32],
) -> Result<Repaired, Reason>
    requires { (n ≤ length space.old) × (length samples.old ≤ most_input) × (length orders.old ≡ length samples.old) }
    ensures { tells_first result samples.new marks.new orders.new space.new
        ≡ told n space.old samples.old marks.old orders.old }
{
    let read = take_wav(&space[..n], samples, marks)?;
    let count = read.samples;
    Ok(repair_samples(
        &mut samples[..count],
        &mut marks[..count],
        &mut orders[..count],
        read.rate,
        space,
    ))
}
