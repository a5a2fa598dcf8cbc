// The report on standard output: one line for each stretch of samples that were made alike.
ghost use Rattle.std.specs.Prelude.{◌≡◌, ◌<◌, length};
ghost use Rattle.wavfile.specs.Stretches.{alike_at, stretch_end};

use inpaint::Scanned;
use recording::marks::Mark;
use std::io;
use std::io::Write;

// Whether two places have the same mark and the same order.
fn is_alike(marks: &[u8], orders: &[u32], start: usize, i: usize) -> bool
    requires { (start < length marks.now) × (i < length marks.now) × (length orders.now ≡ length marks.now) }
    ensures { result ≡ alike_at marks.now orders.now start i }
{
    marks[i] == marks[start] && orders[i] == orders[start]
}

// Where the longest stretch of places from `start` on ends that have its mark and its order: one place after the
// other is looked at, up to the first that is other. (It is no `run_end` of the repairs: the promise cites
// `stretch_end`, which the report is read by, and no run of a recording.)
fn stretch_end(marks: &[u8], orders: &[u32], start: usize) -> usize
    requires { (start < length marks.now) × (length orders.now ≡ length marks.now) }
    ensures { result ≡ stretch_end marks.now orders.now start }
{
    for end in start + 1..marks.len() {
        if !is_alike(marks, orders, start, end) {
            return end;
        }
    }
    marks.len()
}

// Writes the line of a stretch: its first place, how many samples it has, and their mark, and the model's order
// where a model made them.
fn print_stretch<W: Write>(
    out: &mut W,
    place: usize,
    count: usize,
    mark: u8,
    order: u32,
) -> io::Result<()> {
    write!(out, "{place} {count} {mark}")?;
    if mark == Mark::GapByModel as u8 {
        write!(out, " {order}")?;
    }
    writeln!(out)
}

// Writes a line for each stretch of samples that are not measured. Each stretch begins where the one before it
// ended: a `while` steps by a whole one, where a `for` would look at every place of it.
fn print_stretches<W: Write>(out: &mut W, marks: &[u8], orders: &[u32]) -> io::Result<()>
    requires { length orders.now ≡ length marks.now }
{
    let mut i: usize = 0;
    while i < marks.len() {
        let start = i;
        i = stretch_end(marks, orders, start);
        if marks[start] != Mark::Measured as u8 {
            print_stretch(out, start, i - start, marks[start], orders[start])?;
        }
    }
    Ok(())
}

// Ends the line before it and writes what the scan counted, with the number of the first refusal, or 0.
fn print_counts<W: Write>(out: &mut W, scanned: Scanned) -> io::Result<()> {
    let Scanned {
        qualified,
        repaired,
        ..
    } = scanned;
    let refused = scanned.refused_number();
    writeln!(
        out,
        "\nqualified {qualified} repaired {repaired} refused {refused}"
    )
}

// Writes how many samples there are, at which rate, what the scan counted, what it made, and that this is the end.
pub fn print_report<W: Write>(
    out: &mut W,
    rate: u32,
    scanned: Scanned,
    marks: &[u8],
    orders: &[u32],
) -> io::Result<()>
    requires { length orders.now ≡ length marks.now }
{
    let count = marks.len();
    write!(out, "samples {count} rate {rate}")?;
    print_counts(out, scanned)?;
    print_stretches(out, marks, orders)?;
    writeln!(out, "end")
}
