// Repairs the dropouts of a WAV file: `wav IN OUT` reads the file IN, mono 16-bit PCM of at most 262,144 samples,
// writes the repaired one as OUT, and reports to standard output how many samples there are, at which rate, how
// many runs qualified and were repaired and the number of the first refusal, one line for each stretch of made
// samples, with its first place, how many they are, their mark and, where a model made them, the model's order,
// and `end`. Whatever is turned away is named in one line on standard error, and OUT is then not written.
#![tactic(auto)]

ghost use Rattle.std.specs.Prelude.{◌≤◌, length, IfSome};

use std::env::FillError;
use std::io;
use std::io::Write;
use std::rt::Env;
use wavfile::{repair_file, say_error, say_usage};

// The bytes of the longest name.
const NAME_BYTES: usize = 4_096;

// The system's numbers for an argument that is missing, and for one that is too long.
const EINVAL: i32 = 22;

const ENAMETOOLONG: i32 = 36;

// Whether the program was called with an argument of this number.
fn is_given(rt: &impl Env, i: usize) -> bool {
    let mut none = [0u8; 0];
    !matches!(rt.arg(i, &mut none), Err(FillError::NotPresent))
}

// The system's error for an argument that was not taken whole.
fn error_of(error: FillError) -> io::Error {
    io::Error::from_raw_os_error(match error {
        FillError::NotPresent => EINVAL,
        FillError::TooLong => ENAMETOOLONG,
    })
}

// Takes the argument of this number whole and gives how many bytes it has, or None and says of which it cannot.
fn take_name<W: Write>(
    rt: &impl Env,
    said: &mut W,
    i: usize,
    title: &[u8],
    name: &mut [u8],
) -> Option<usize>
    ensures { IfSome result (λ n. n ≤ length name.new) }
{
    match rt.arg(i, name) {
        Ok(n) => Some(n),
        Err(error) => {
            say_error(said, title, error_of(error));
            None
        }
    }
}

// Two names that are whole are answered.
fn main(rt: HostRuntime) -> io::Result<()> {
    let mut said = rt.stderr();
    if !is_given(&rt, 2) || is_given(&rt, 3) {
        say_usage(&mut said);
        return Ok(());
    }
    let mut from = [0u8; NAME_BYTES];
    let Some(n) = take_name(&rt, &mut said, 1, b"IN", &mut from) else {
        return Ok(());
    };
    let mut to = [0u8; NAME_BYTES];
    let Some(m) = take_name(&rt, &mut said, 2, b"OUT", &mut to) else {
        return Ok(());
    };
    repair_file(&rt, &mut said, &from[..n], &to[..m])
}
