// Replays a list of the original's answers for every repair, and compares: the answer of the call, the mark of
// every sample and every sample. The list is text on standard input, a line for each case. Its parts are a
// letter, words of eight hexadecimal digits in lower case and a row of marks, with a space between them.
//   letter, three settings, number, value, beside, n, m, n samples, n marks, m samples
// The letter says which repair it is, and what its settings are; those that are floats stand as their words.
//   g start len passes                 one gap
//   s rate limit 0                     the scan, with its limit in milliseconds
//   d threshold 0 0                    cubic declip
//   c sensitivity 0 0                  decrackle, from the old start
//   q bits strength 0                  `dequantize`
//   p bits strength iterations         `dequantize_cosparse`
// Number and value are the answer's. Beside them stands the order of the model for a gap, and else 0. Of a scan
// the three are the number of the first refusal, or 0, how many runs it repaired and how many qualified. A mark
// is one digit. The m samples are the new ones at the places whose mark is not 0, in their order; all others are
// to be what they were.
#![tactic(auto)]

ghost use Rattle.std.specs.Prelude.{◌+◌, ◌*◌, ◌^◌, ◌≤◌, ◌<◌, ◌≡◌, length};
ghost use Rattle.repairlist.specs.Layout.{word_bytes, head_bytes, row_bytes};

use declip::declip;
use decrackle::{Start, decrackle};
use dequant::cosparse::dequantize_cosparse;
use dequant::passes::dequantize;
use inpaint::auto::{HELD_RUN, inpaint_auto};
use inpaint::gap::inpaint_gap;
use inpaint::{Filled, Scanned, answer_of, order_of};
use intake::read_full;
use leaves::words::f32_of_word;
use recording::marks::Mark;
use recording::numbers::{number_of, value_of};
use recording::{Answer, Reason, Recording};
use std::io;
use std::io::Write;

// How many bytes of a list are read.
const MOST_BYTES: usize = 65_536;

// How many samples a recording of the list has, at least one and at most this; its counts, of one block; what its
// journal and its workspaces hold.
const MOST: usize = 120;

const COUNTS: usize = 1;

const JOURNAL_WORDS: usize = 512;

const WORKSPACE: usize = 4_788;

const WORKSPACE_WORDS: usize = 240;

// A word takes its eight digits and the space or the line's end behind them; the letter takes two bytes.
const WORD: usize = 9;

const LETTER: usize = 2;

// The letter and eight words, which each case begins with.
const HEAD: usize = LETTER + 8 * WORD;

// Which repair a case is of.
#[derive(Clone, Copy)]
enum Kind {
    Gap,
    Scan,
    Declip,
    Decrackle,
    Dequantize,
    Cosparse,
}

// What a call answers, as the list has it.
#[derive(Clone, Copy, PartialEq, Eq)]
struct Answered {
    number: u32,
    value: usize,
    beside: usize,
}

// What a case begins with, behind its letter.
#[derive(Clone, Copy)]
struct Head {
    settings: [u32; 3],
    answered: Answered,
    samples: usize,
    renewed: usize,
}

// The answer of a repair: nothing stands beside it.
impl From<Answer> for Answered {
    fn from(answer: Answer) -> Answered {
        Answered {
            number: number_of(answer),
            value: value_of(answer),
            beside: 0,
        }
    }
}

// The answer of a gap: beside it stands the order of its model, and 0 where it is refused.
impl From<Result<Filled, Reason>> for Answered {
    fn from(filled: Result<Filled, Reason>) -> Answered {
        Answered {
            beside: order_of(filled) as usize,
            ..answer_of(filled).into()
        }
    }
}

// The answer of a scan: beside the runs repaired stand those that qualified.
impl From<Scanned> for Answered {
    fn from(scanned: Scanned) -> Answered {
        Answered {
            number: scanned.refused_number(),
            value: scanned.repaired,
            beside: scanned.qualified,
        }
    }
}

impl Kind {
    // The letter of its cases.
    fn letter(self) -> u8 {
        match self {
            Kind::Gap => b'g',
            Kind::Scan => b's',
            Kind::Declip => b'd',
            Kind::Decrackle => b'c',
            Kind::Dequantize => b'q',
            Kind::Cosparse => b'p',
        }
    }

    // What the report calls them, with the blank behind it.
    fn name(self) -> &'static str {
        match self {
            Kind::Gap => "gaps ",
            Kind::Scan => "scans ",
            Kind::Declip => "declips ",
            Kind::Decrackle => "decrackles ",
            Kind::Dequantize => "dequantizes ",
            Kind::Cosparse => "dequantizes by cosparse ",
        }
    }

    // Repairs a recording with a case's three settings.
    fn repair(self, recording: &mut Recording, settings: [u32; 3]) -> Answered {
        let [first, second, third] = settings;
        let mut words = [7u32; WORKSPACE_WORDS];
        let a = f32_of_word(first);
        let b = f32_of_word(second);
        match self {
            Kind::Gap => repair_gap(recording, first as usize, second as usize, third),
            Kind::Scan => scan(recording, first, b),
            Kind::Declip => declip(recording, a, &mut words).into(),
            Kind::Decrackle => decrackle(recording, a, Start::Old, &mut words).into(),
            Kind::Dequantize => dequantize(recording, first, b, &mut words).into(),
            Kind::Cosparse => dequantize_cosparse(recording, first, b, third, &mut words).into(),
        }
    }
}

// Repairs a gap, with a workspace of its own, which the repairs over the whole recording have no use for.
fn repair_gap(recording: &mut Recording, start: usize, len: usize, passes: u32) -> Answered {
    let mut doubles = [1.5f64; WORKSPACE];
    inpaint_gap(recording, start, len, passes, &mut doubles).into()
}

// Scans for dropouts likewise.
fn scan(recording: &mut Recording, rate: u32, millis: f32) -> Answered {
    let mut doubles = [1.5f64; WORKSPACE];
    let mut orders = [0u32; MOST];
    inpaint_auto(recording, rate, millis, HELD_RUN, &mut doubles, &mut orders).into()
}

// The number that an ASCII digit stands for; any other byte counts as 0. (`replay` reads digits for itself: what
// the programs within the gate read is text of their own, of which no library speaks.)
fn digit(c: u8) -> u8
    ensures { result ≤ 15 }
{
    match c {
        b'0'..=b'9' => c - b'0',
        b'a'..=b'f' => c - b'a' + 10,
        _ => 0,
    }
}

// The word that the first eight digits spell. Of what stands before a digit the lowest 28 bits stay, which are all
// there are.
fn word(digits: &[u8]) -> u32
    requires { word_bytes ≤ length digits.now }
{
    let mut n: u32 = 0;
    for c in &digits[..8] {
        n = n % 0x1000_0000 * 16 + digit(*c) as u32;
    }
    n
}

// One of the eight words that a case begins with: which of them, from 0 on.
fn told_word(case: &[u8], which: usize) -> u32
    requires { (head_bytes ≤ length case.now) × (which < 8) }
{
    word(&case[LETTER + WORD * which..])
}

// The same as a count.
fn told_count(case: &[u8], which: usize) -> usize
    requires { (head_bytes ≤ length case.now) × (which < 8) }
    ensures { result < 2 ^ 32 }
{
    told_word(case, which) as usize
}

// What a case begins with.
fn read_head(case: &[u8]) -> Head
    requires { head_bytes ≤ length case.now }
    ensures { (result.samples < 2 ^ 32) × (result.renewed < 2 ^ 32) }
{
    Head {
        settings: [told_word(case, 0), told_word(case, 1), told_word(case, 2)],
        answered: Answered {
            number: told_word(case, 3),
            value: told_count(case, 4),
            beside: told_count(case, 5),
        },
        samples: told_count(case, 6),
        renewed: told_count(case, 7),
    }
}

// How many bytes a case takes that has so many samples, and so many of them renewed. Each is a count of the list.
fn case_length(samples: usize, renewed: usize) -> usize
    requires { (samples < 2 ^ 32) × (renewed < 2 ^ 32) }
    ensures { result ≡ head_bytes + row_bytes samples renewed }
{
    HEAD + WORD * samples + (samples + 1) + WORD * renewed
}

// Fills the samples with the words of a row.
fn load(row: &[u8], samples: &mut [u32])
    requires { word_bytes * length samples.old ≤ length row.now }
{
    for (i, sample) in samples.iter_mut().enumerate() {
        *sample = word(&row[WORD * i..]);
    }
}

// Whether the marks are these digits.
fn same_marks(digits: &[u8], marks: &[u8]) -> bool
    requires { length marks.now ≤ length digits.now }
{
    let digits = &digits[..marks.len()];
    marks.iter().zip(digits).all(|(mark, c)| *mark == digit(*c))
}

// Whether the samples are what a row says of them, where their words before the repair stand, their marks and the
// words of those renewed. A sample with a mark is the next of these, and any other is what it was.
fn same_samples(row: &[u8], renewed: usize, samples: &[u32]) -> bool
    requires { row_bytes (length samples.now) renewed ≤ length row.now }
{
    let n = samples.len();
    let marks = WORD * n;
    let mut passed: usize = 0;
    for (i, sample) in samples.iter().enumerate() {
        let mut from = WORD * i;
        if digit(row[marks + i]) != Mark::Measured as u8 {
            if passed == renewed {
                return false;
            }
            from = marks + n + 1 + WORD * passed;
            passed += 1;
        }
        if *sample != word(&row[from..]) {
            return false;
        }
    }
    passed == renewed
}

// Repairs the samples with these settings, in a recording that is made of them.
fn repair(kind: Kind, settings: [u32; 3], samples: &mut [u32], marks: &mut [u8]) -> Answered {
    let mut counts = [0u16; COUNTS];
    let mut journal = [0u32; JOURNAL_WORDS];
    let mut used: usize = 0;
    let mut recording = Recording {
        samples,
        marks,
        counts: &mut counts,
        journal: &mut journal,
        used: &mut used,
    };
    kind.repair(&mut recording, settings)
}

// Whether a case agrees in its answer, its marks and its samples, which stand in its row. Samples and marks are lent,
// as many as the case has.
fn repaired_so(kind: Kind, head: Head, row: &[u8], samples: &mut [u32], marks: &mut [u8]) -> bool
    requires { (row_bytes (length samples.old) head.renewed ≤ length row.now)
        × (length marks.old ≡ length samples.old) }
{
    load(row, samples);
    repair(kind, head.settings, samples, marks) == head.answered
        && same_marks(&row[WORD * samples.len()..], marks)
        && same_samples(row, head.renewed, samples)
}

// Whether a case agrees; one that is cut off or has too many samples does not.
fn agrees(kind: Kind, case: &[u8]) -> bool {
    if case.len() < HEAD {
        return false;
    }
    let head = read_head(case);
    let n = head.samples;
    if MOST < n || case.len() < case_length(n, head.renewed) {
        return false;
    }
    let mut samples = [0u32; MOST];
    let mut marks = [Mark::Measured as u8; MOST];
    let row = &case[HEAD..];
    repaired_so(kind, head, row, &mut samples[..n], &mut marks[..n])
}

// How many bytes the first case takes, or all where it is cut off.
fn case_end(cases: &[u8]) -> usize
    requires { 0 < length cases.now }
    ensures { (0 < result) × (result ≤ length cases.now) }
{
    let full = cases.len();
    if full < HEAD {
        return full;
    }
    let Head {
        samples,
        renewed,
        ..
    } = read_head(cases);
    case_length(samples, renewed).min(full)
}

// How many cases of a kind there are, and how many of them agree.
#[derive(Clone, Copy)]
struct Tally {
    cases: usize,
    agreeing: usize,
}

// Goes through the list, case after case. A case is as long as its own head says, so that the walk steps by what is
// left and counts no place.
fn count_cases(list: &[u8], kind: Kind) -> Tally {
    let mut cases: usize = 0;
    let mut agreeing: usize = 0;
    let mut rest = list;
    while !rest.is_empty() {
        if rest[0] == kind.letter() {
            cases += 1;
            if agrees(kind, rest) {
                agreeing += 1;
            }
        }
        rest = &rest[case_end(rest)..];
    }
    Tally { cases, agreeing }
}

// Writes, as a line, how many cases of a kind there are and how many of them agree.
fn report<W: Write>(out: &mut W, list: &[u8], kind: Kind) -> io::Result<()> {
    let name = kind.name();
    let Tally { cases, agreeing } = count_cases(list, kind);
    writeln!(out, "{name}{cases} agree {agreeing}")
}

// Writes these lines for every repair.
fn report_all<W: Write>(out: &mut W, list: &[u8]) -> io::Result<()> {
    report(out, list, Kind::Gap)?;
    report(out, list, Kind::Scan)?;
    report(out, list, Kind::Declip)?;
    report(out, list, Kind::Decrackle)?;
    report(out, list, Kind::Dequantize)?;
    report(out, list, Kind::Cosparse)
}

fn main(rt: HostRuntime) -> io::Result<()> {
    let mut space = [0u8; MOST_BYTES];
    let n = read_full(&mut rt.stdin(), &mut space)?;
    report_all(&mut rt.stdout(), &space[..n])
}
