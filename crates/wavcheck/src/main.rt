// Holds the file that `wav` writes to the one that it is to write: repairs `pump.wav` as `wav` does, which writes
// the report, and compares the file that comes of it with `expected.wav`, byte for byte.
#![tactic(auto)]

ghost use Rattle.std.specs.Prelude.{◌≡◌};
ghost use Rattle.wavcheck.specs.Same.{same_bytes};

use std::io;
use std::io::Write;
use std::rt::Files;
use wavfile::{load_file, repair_file};

// The bytes of the largest file that is compared.
const MOST_BYTES: usize = 65_536;

// How many bytes two files have in common before the first that differs, or that only one has.
fn same_bytes(a: &[u8], b: &[u8]) -> usize
    ensures { result ≡ same_bytes a.now b.now }
{
    for i in 0..a.len() {
        if b.len() <= i || a[i] != b[i] {
            return i;
        }
    }
    a.len()
}

// Writes whether two files are the same.
fn compare<R: Print>(rt: &R, a: &[u8], b: &[u8]) -> io::Result<()> {
    let n = same_bytes(a, b);
    if n == a.len() && n == b.len() {
        println!(rt; "output as expected: {n} bytes")
    } else {
        println!(rt; "output differs at byte {n}")
    }
}

// Reads the second file and compares it.
fn compare_with<R: Files + Print, W: Write>(
    rt: &R,
    said: &mut W,
    a: &[u8],
    name: &[u8],
) -> io::Result<()> {
    let mut space = [0u8; MOST_BYTES];
    let Some(n) = load_file(rt, said, name, &mut space) else {
        return Ok(());
    };
    compare(rt, a, &space[..n])
}

// Reads both files and compares them.
fn compare_files<R: Files + Print, W: Write>(
    rt: &R,
    said: &mut W,
    name: &[u8],
    other: &[u8],
) -> io::Result<()> {
    let mut space = [0u8; MOST_BYTES];
    let Some(n) = load_file(rt, said, name, &mut space) else {
        return Ok(());
    };
    compare_with(rt, said, &space[..n], other)
}

fn main(rt: HostRuntime) -> io::Result<()> {
    let mut said = rt.stderr();
    repair_file(&rt, &mut said, b"pump.wav", b"out.wav")?;
    compare_files(&rt, &mut said, b"out.wav", b"expected.wav")
}
