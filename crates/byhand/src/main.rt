// Runs rows of document 01's "Sums done by hand" on the compiled code and writes what each leaves: the
// number and the value of the answer and used, then samples and journal in hexadecimal digits and the
// marks and the counts of the blocks in decimal ones; and of a gap the order of its model. And *quiet* once
// more by a list of gaps, a steady tone that decrackle redraws from the old start and leaves alone from the mean,
// and proposals for three samples.
#![tactic(auto)]

ghost use Rattle.std.specs.Prelude.{◌≤◌, length};

use decrackle::{Start, decrackle};
use inpaint::gap::inpaint_gap;
use inpaint::{Filled, answer_of, order_of};
use leaves::words::word_of_f32;
use proposed::declip_proposed;
use recording::marks::Mark;
use recording::numbers::{number_of, value_of};
use recording::{Answer, Reason, Recording};
use splice::inpaint_gaps;
use std::fmt::Display;
use std::io;
use std::io::Write;
use std::num::nearest_u32_to_f32;

// 2^-30, which stands around the gap of *quiet*, and the plain numbers 1, -1, 4096, 1/2, 1 1/2, -2 and 2.
const SOFT: u32 = 0x3080_0000;

const ONE: u32 = 0x3f80_0000;

const MINUS_ONE: u32 = 0xbf80_0000;

const LAST: u32 = 0x4580_0000;

const HALF: u32 = 0x3f00_0000;

const MORE: u32 = 0x3fc0_0000;

const MINUS_TWO: u32 = 0xc000_0000;

const TWO: u32 = 0x4000_0000;

// -1/2, and the float just below 1.
const MINUS_HALF: u32 = 0xbf00_0000;

const BELOW_ONE: u32 = 0x3f7f_ffff;

// What stands in lent memory that nobody has written yet.
const LEFT: u32 = 0xdead_beef;

const LEFT_COUNT: u16 = 0xbeef;

// Doubles of workspace: enough for a gap of 2048 samples, whatever its window.
const WORKSPACE: usize = 289_284;

// The words of the journal that suffices for each long gap.
const LONG_JOURNAL: usize = 12_287;

// The samples of *quiet*.
const QUIET: [u32; 6] = [SOFT, SOFT, 0, 0, SOFT, SOFT];

// A recording with memory of its own: its samples, which make so many counts, and a journal of so many words.
#[derive(Drop)]
struct Memory<const SAMPLES: usize, const COUNTS: usize, const WORDS: usize> {
    samples: [u32; SAMPLES],
    marks: [u8; SAMPLES],
    counts: [u16; COUNTS],
    journal: [u32; WORDS],
    used: usize,
}

impl<const SAMPLES: usize, const COUNTS: usize, const WORDS: usize> Memory<SAMPLES, COUNTS, WORDS> {
    // These samples; all else is what was left there.
    fn with(samples: [u32; SAMPLES]) -> Self {
        Memory {
            samples,
            marks: [7; SAMPLES],
            counts: [LEFT_COUNT; COUNTS],
            journal: [LEFT; WORDS],
            used: 99,
        }
    }

    // The recording itself, to be repaired.
    fn recording(&mut self) -> Recording<'_> {
        Recording {
            samples: &mut self.samples,
            marks: &mut self.marks,
            counts: &mut self.counts,
            journal: &mut self.journal,
            used: &mut self.used,
        }
    }
}

// Writes a name, with the blanks before it, and words in hexadecimal digits, each with zeros in front up to `width`,
// as a line.
fn print_words<W: Write>(out: &mut W, name: &str, words: &[u32], width: usize) -> io::Result<()> {
    write!(out, "{name}")?;
    for word in words {
        write!(out, " {word:0width$x}")?;
    }
    writeln!(out)
}

// Writes a name, with the blanks before it, and numbers as a line.
fn print_numbers<W: Write, T: Display>(out: &mut W, name: &str, numbers: &[T]) -> io::Result<()> {
    write!(out, "{name}")?;
    for number in numbers {
        write!(out, " {number}")?;
    }
    writeln!(out)
}

// Writes how a call ended.
fn print_answer<W: Write>(out: &mut W, title: &str, answer: Answer, used: usize) -> io::Result<()> {
    let number = number_of(answer);
    let value = value_of(answer);
    writeln!(out, "{title}: answer {number}, value {value}, used {used}")
}

// Writes how a call ended, and the recording after it.
fn show<W: Write>(
    out: &mut W,
    title: &str,
    answer: Answer,
    recording: &Recording,
) -> io::Result<()> {
    print_answer(out, title, answer, *recording.used)?;
    print_words(out, "  samples", recording.samples, 8)?;
    print_numbers(out, "  marks", recording.marks)?;
    print_numbers(out, "  counts", recording.counts)?;
    print_words(out, "  journal", recording.journal, 1)
}

// Writes how the repair of a gap ended, and the order of its model.
fn print_gap<W: Write>(
    out: &mut W,
    title: &str,
    filled: Result<Filled, Reason>,
    used: usize,
) -> io::Result<()> {
    let order = order_of(filled);
    print_answer(out, title, answer_of(filled), used)?;
    writeln!(out, "  order {order}")
}

// Repairs a gap at 2 by 3 passes and shows the recording.
fn gap_at_2<W: Write>(
    out: &mut W,
    title: &str,
    recording: &mut Recording,
    len: usize,
) -> io::Result<()> {
    let mut work = [1.5f64; 300];
    let filled = inpaint_gap(recording, 2, len, 3, &mut work);
    let order = order_of(filled);
    show(out, title, answer_of(filled), recording)?;
    writeln!(out, "  order {order}")
}

// Takes the last entry back and shows the recording.
fn take_back<W: Write>(out: &mut W, recording: &mut Recording) -> io::Result<()> {
    let answer = recording.undo();
    show(out, "undo", answer, recording)
}

// *Quiet*, opened over what was left in the lent memory: a gap of no sample is repaired and one of two, and taken back
// twice.
fn quiet<W: Write>(out: &mut W, recording: &mut Recording) -> io::Result<()> {
    let opened = recording.open_as_measured();
    show(out, "open", opened, recording)?;
    gap_at_2(out, "gap of length 0", recording, 0)?;
    gap_at_2(out, "gap of length 2", recording, 2)?;
    take_back(out, recording)?;
    take_back(out, recording)
}

// Repairs three gaps in one call and shows the recording: that of *quiet*, one that passes the end, and the
// first again.
fn three_gaps<W: Write>(
    out: &mut W,
    title: &str,
    recording: &mut Recording,
    orders: &mut [u32],
) -> io::Result<()> {
    let mut work = [1.5f64; 300];
    let mut numbers = [LEFT; 3];
    let mut values = [99usize; 3];
    let answer = inpaint_gaps(
        recording,
        &[2, 5, 2],
        &[2, 2, 2],
        3,
        &mut work,
        &mut numbers,
        &mut values,
        orders,
    );
    show(out, title, answer, recording)?;
    print_words(out, "  numbers", &numbers, 1)?;
    let [first, second, third] = values;
    writeln!(out, "  values {first} {second} {third}")?;
    print_words(out, "  orders", orders, 1)
}

// *Quiet* by a list of three gaps: first with too short a list for the orders; and at last an undo, which
// takes back the third gap.
fn quiet_in_turn<W: Write>(out: &mut W) -> io::Result<()> {
    let mut memory = Memory::<6, 1, 16>::with(QUIET);
    let mut recording = memory.recording();
    let _ = recording.open_as_measured();
    let few = "two orders for three gaps";
    three_gaps(out, few, &mut recording, &mut [LEFT; 2])?;
    three_gaps(out, "three gaps", &mut recording, &mut [LEFT; 3])?;
    take_back(out, &mut recording)
}

// Opens a recording of at most 10 samples, decrackles it, and shows what is left and the workspace.
fn decrackle_and_show<W: Write>(
    out: &mut W,
    title: &str,
    recording: &mut Recording,
    sensitivity: f32,
    start: Start,
) -> io::Result<()> {
    let mut work = [LEFT; 20];
    let _ = recording.open_as_measured();
    let answer = decrackle(recording, sensitivity, start, &mut work);
    show(out, title, answer, recording)?;
    print_words(out, "  workspace", &work, 1)
}

// 9 samples of which only place 4 is 1, decrackled at sensitivity 10 from the old start.
fn crackle<W: Write>(out: &mut W) -> io::Result<()> {
    let mut memory = Memory::<9, 1, 12>::with([0, 0, 0, 0, ONE, 0, 0, 0, 0]);
    let mut recording = memory.recording();
    decrackle_and_show(out, "decrackle at 10", &mut recording, 10.0, Start::Old)
}

// 8 samples of a steady tone, decrackled at sensitivity 5. No shorter one can be redrawn, since under 8 samples
// nothing is named.
fn tone<W: Write>(out: &mut W, title: &str, start: Start) -> io::Result<()> {
    let samples = [0, ONE, 0, MINUS_ONE, 0, ONE, 0, MINUS_ONE];
    let mut memory = Memory::<8, 1, 12>::with(samples);
    decrackle_and_show(out, title, &mut memory.recording(), 5.0, start)
}

// 1/2, 1 and -2, freshly opened, and this proposal for them at the threshold 1; then what an undo leaves.
fn propose<W: Write>(out: &mut W, title: &str, proposal: &[u32]) -> io::Result<()> {
    let mut memory = Memory::<3, 1, 8>::with([HALF, ONE, MINUS_TWO]);
    let mut recording = memory.recording();
    let _ = recording.open_as_measured();
    let answer = declip_proposed(&mut recording, 1.0, proposal);
    show(out, title, answer, &recording)?;
    take_back(out, &mut recording)
}

// One that is taken, and two that are not: the sample under the threshold has its sign changed; 1 is answered by
// the float below it, and -2 by 2.
fn proposals<W: Write>(out: &mut W) -> io::Result<()> {
    propose(out, "1/2, 1 1/2 and -2", &[HALF, MORE, MINUS_TWO])?;
    propose(out, "-1/2, 1 1/2 and -2", &[MINUS_HALF, MORE, MINUS_TWO])?;
    let beside = [HALF, BELOW_ONE, TWO];
    propose(out, "1/2, the float below 1, and 2", &beside)
}

// How many samples are the number of their place.
fn own_numbers(samples: &[u32]) -> usize
    requires { length samples.now ≤ 4097 }
{
    samples
        .iter()
        .enumerate()
        .filter(|(place, word)| **word == word_of_f32(nearest_u32_to_f32(*place as u32)))
        .count()
}

// How many samples have this mark.
fn marked(marks: &[u8], mark: Mark) -> usize {
    marks.iter().filter(|m| **m == mark as u8).count()
}

// Opens a recording and repairs the gap of `len` samples from its second place on.
fn open_and_fill(
    recording: &mut Recording,
    len: usize,
    passes: u32,
    work: &mut [f64],
) -> Result<Filled, Reason> {
    let _ = recording.open_as_measured();
    inpaint_gap(recording, 1, len, passes, work)
}

// 4097 samples whose ends are 0 and 4096, with a gap between them, and a journal that is lent.
fn line<W: Write>(out: &mut W, journal: &mut [u32], work: &mut [f64]) -> io::Result<()> {
    let mut memory = Memory::<4097, 17, 0>::with([ONE; 4097]);
    memory.samples[0] = 0;
    memory.samples[4096] = LAST;
    let mut recording = Recording {
        journal,
        ..memory.recording()
    };
    let filled = open_and_fill(&mut recording, 4095, 3, work);
    print_gap(out, "gap at 1 of 4095", filled, memory.used)?;
    let own = own_numbers(&memory.samples);
    let by_line = marked(&memory.marks, Mark::GapByLine);
    writeln!(out, "  samples that are their place: {own}")?;
    writeln!(out, "  samples marked 2: {by_line}")?;
    print_numbers(out, "  counts", &memory.counts)
}

// A gap of `len` samples among ones: by which way it was filled.
fn boundary<W: Write>(
    out: &mut W,
    title: &str,
    journal: &mut [u32],
    work: &mut [f64],
    len: usize,
) -> io::Result<()> {
    let mut memory = Memory::<2052, 9, 0>::with([ONE; 2052]);
    let mut recording = Recording {
        journal,
        ..memory.recording()
    };
    let filled = open_and_fill(&mut recording, len, 1, work);
    print_gap(out, title, filled, memory.used)?;
    let by_model = marked(&memory.marks, Mark::GapByModel);
    let by_line = marked(&memory.marks, Mark::GapByLine);
    writeln!(out, "  samples marked 1: {by_model}")?;
    writeln!(out, "  samples marked 2: {by_line}")?;
    print_numbers(out, "  counts", &memory.counts)
}

// The long gaps, in a journal and a workspace that suffice for each.
fn long_gaps<W: Write>(out: &mut W) -> io::Result<()> {
    let mut journal = [LEFT; LONG_JOURNAL];
    let mut work = [1.5f64; WORKSPACE];
    line(out, &mut journal, &mut work)?;
    boundary(out, "gap at 1 of 2048", &mut journal, &mut work, 2048)?;
    boundary(out, "gap at 1 of 2049", &mut journal, &mut work, 2049)
}

// The rows, one after the other.
fn show_all<W: Write>(out: &mut W) -> io::Result<()> {
    writeln!(out, "Quiet, with a journal of 8 words")?;
    let mut memory = Memory::<6, 1, 8>::with(QUIET);
    quiet(out, &mut memory.recording())?;
    writeln!(out, "Quiet, with a journal of 7 words")?;
    let mut memory = Memory::<6, 1, 7>::with(QUIET);
    quiet(out, &mut memory.recording())?;
    writeln!(out, "Quiet, by a list of three gaps")?;
    quiet_in_turn(out)?;
    writeln!(out, "Nine samples, one of them 1")?;
    crackle(out)?;
    writeln!(out, "A steady tone of eight samples")?;
    tone(out, "decrackle at 5 from the old start", Start::Old)?;
    tone(out, "decrackle at 5 from the mean", Start::Mean)?;
    writeln!(out, "1/2, 1 and -2, with proposals at the threshold 1")?;
    proposals(out)?;
    writeln!(out, "Long gaps")?;
    long_gaps(out)
}

fn main(rt: HostRuntime) -> io::Result<()> {
    show_all(&mut rt.stdout())
}
