// Replays a list of answers and compares. The list is text on standard input, a line of 36 bytes for
// each answer: the letter of a leaf, the pattern that goes in and the pattern that must come out, each
// as 16 hexadecimal digits in lower case, with a space before each. What goes in is an f64 or, in the
// lower half, an f32, unless the letter's line below says otherwise.
//   r  the square root of an f64               l  the larger of two f32, the first in the upper half
//   n  an f64 narrowed to an f32               g  the larger of the same two, widened
//   w  an f32 rounded to whole                 s  the smaller of two f32
//   i  whether a sample is in range, 1 or 0    c  an f32 in the upper half held to two others, of each
//   x  an f32 widened                             of which the lower half has the upper 16 bits
//   m  the magnitude of an f32
//   d  the magnitude of an f64
#![tactic(auto)]

ghost use Rattle.std.specs.Prelude.{◌≡◌, ◌≤◌, length};

use intake::read_full;
use leaves::narrow::narrow;
use leaves::order::{clamp, larger, magnitude, smaller};
use leaves::root::square_root;
use leaves::whole::round_to_whole;
use leaves::words::{f32_of_word, f64_of_word, in_range, widen, word_of_f32, word_of_f64};
use std::io;
use std::io::Write;

// How many bytes of a list are read.
const MOST_BYTES: usize = 65_536;

// How many bytes a line has.
const LINE: usize = 36;

// A leaf, by what the list above says of its letter.
#[derive(Clone, Copy, PartialEq, Eq)]
enum Leaf {
    Root,
    Narrow,
    Round,
    InRange,
    Widen,
    Magnitude32,
    Magnitude64,
    Larger32,
    Larger64,
    Smaller32,
    Clamp32,
}

// Each leaf's letter and its name with the blank behind it, in the order of the report.
const LEAVES: [(u8, Leaf, &str); 11] = [
    (b'r', Leaf::Root, "root "),
    (b'n', Leaf::Narrow, "narrow "),
    (b'w', Leaf::Round, "round to whole "),
    (b'i', Leaf::InRange, "in range "),
    (b'x', Leaf::Widen, "widen "),
    (b'm', Leaf::Magnitude32, "magnitude32 "),
    (b'd', Leaf::Magnitude64, "magnitude64 "),
    (b'l', Leaf::Larger32, "larger32 "),
    (b'g', Leaf::Larger64, "larger64 "),
    (b's', Leaf::Smaller32, "smaller32 "),
    (b'c', Leaf::Clamp32, "clamp32 "),
];

impl TryFrom<u8> for Leaf {
    type Error = ();

    fn try_from(letter: u8) -> Result<Leaf, ()> {
        let found = LEAVES.iter().find(|(l, _, _)| *l == letter);
        found.map(|(_, leaf, _)| *leaf).ok_or(())
    }
}

// The number that an ASCII digit stands for; any other byte counts as 0.
fn digit(c: u8) -> u64
    ensures { result ≤ 15 }
{
    match c {
        b'0'..=b'9' => (c - b'0') as u64,
        b'a'..=b'f' => (c - b'a' + 10) as u64,
        _ => 0,
    }
}

// The number that hexadecimal digits spell. Of what stands before a digit the lowest 60 bits stay, which
// are all there are of 16 digits.
fn number(digits: &[u8]) -> u64 {
    digits
        .iter()
        .fold(0, |n, c| n % 0x1000_0000_0000_0000 * 16 + digit(*c))
}

// The lower and the upper 32 bits.
fn lower(given: u64) -> u32 {
    (given % 0x1_0000_0000) as u32
}

fn upper(given: u64) -> u32 {
    (given / 0x1_0000_0000) as u32
}

// Of the lower 32 bits, the upper 16 and the lower 16, each as the upper half of a word.
fn first_end(given: u64) -> u32 {
    (given % 0x1_0000_0000 / 0x1_0000 * 0x1_0000) as u32
}

fn second_end(given: u64) -> u32 {
    (given % 0x1_0000 * 0x1_0000) as u32
}

// The pattern that a leaf gives for a pattern.
fn answer(leaf: Leaf, given: u64) -> u64 {
    let x = f64_of_word(given);
    let a = f32_of_word(upper(given));
    let b = f32_of_word(lower(given));
    match leaf {
        Leaf::Root => word_of_f64(square_root(x)),
        Leaf::Narrow => word_of_f32(narrow(x)) as u64,
        Leaf::Round => word_of_f32(round_to_whole(b)) as u64,
        Leaf::InRange => in_range(lower(given)) as u64,
        Leaf::Widen => word_of_f64(widen(b)),
        Leaf::Magnitude32 => word_of_f32(magnitude(b)) as u64,
        Leaf::Magnitude64 => word_of_f64(magnitude(x)),
        Leaf::Larger32 => word_of_f32(larger(a, b)) as u64,
        Leaf::Larger64 => word_of_f64(larger(widen(a), widen(b))),
        Leaf::Smaller32 => word_of_f32(smaller(a, b)) as u64,
        Leaf::Clamp32 => {
            let low = f32_of_word(first_end(given));
            let high = f32_of_word(second_end(given));
            word_of_f32(clamp(a, low, high)) as u64
        }
    }
}

// Whether a line has the answer that its leaf gives. A letter that is no leaf's counts as c.
fn agrees(line: &[u8]) -> bool
    requires { length line.now ≡ 36 }
{
    let leaf = Leaf::try_from(line[0]).unwrap_or(Leaf::Clamp32);
    answer(leaf, number(&line[2..18])) == number(&line[19..35])
}

// How many lines of this leaf agree.
fn agreeing(list: &[u8], leaf: Leaf) -> usize {
    list.chunks_exact(LINE)
        .filter(|line| Leaf::try_from(line[0]) == Ok(leaf) && agrees(line))
        .count()
}

// The number of the first line that does not agree, counted from 1, or 0 where all do.
fn first_that_differs(list: &[u8]) -> usize {
    let first = list.chunks_exact(LINE).position(|line| !agrees(line));
    first.map_or(0, |k| k + 1)
}

// Writes how many lines there are, how many of them agree for each leaf, and the first that does not.
fn print_report<W: Write>(out: &mut W, list: &[u8]) -> io::Result<()> {
    writeln!(out, "lines {}", list.len() / LINE)?;
    for (_, leaf, name) in LEAVES.iter() {
        writeln!(out, "{name}{}", agreeing(list, *leaf))?;
    }
    writeln!(out, "first line that differs {}", first_that_differs(list))
}

fn main(rt: HostRuntime) -> io::Result<()> {
    let mut space = [0u8; MOST_BYTES];
    let n = read_full(&mut rt.stdin(), &mut space)?;
    print_report(&mut rt.stdout(), &space[..n])
}
