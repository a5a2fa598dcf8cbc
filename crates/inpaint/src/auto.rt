// The automatic scan for dropouts.
ghost use Rattle.std.specs.Prelude.{◌≡◌, ◌+◌, ◌<◌, ◌≤◌, ◌&&◌, length, replicate};
ghost use Rattle.std.proofs.lemmas.List.Edits.{sets};
ghost use Rattle.std.specs.Float.Ieee.{to_unsigned};
ghost use Rattle.inpaint.specs.Auto.{allowed, held_allowed, limit, zero_or_nan, holdable, continues, run_begins, long_enough, kept};
ghost use Rattle.inpaint.specs.Auto.{run_at, gap_allowed, qualifies};
ghost use Rattle.inpaint.specs.Auto.{next_run, scan, refused_number, scan_from, scannable, automatic};
ghost use Rattle.inpaint.specs.Filled.{answer_of, order_of};
ghost use Rattle.inpaint.specs.Order.{noted, orders_over, scan_orders};
ghost use Rattle.inpaint.specs.Runs.{runs_of};
ghost use Rattle.recording.specs.Recording.{most_samples};
ghost use Rattle.recording.specs.Lent as lent;
ghost use Rattle.recording.specs.Lent.{SameMemory};

use super::gap::inpaint_gap;
use super::window::MAX_SOLVE;
use super::{Filled, Scanned, Stretch};
use leaves::order::larger;
use leaves::words::{count_as_f32, f32_of_word, in_range};
use recording::clear::set_all;
use recording::{Answer, Reason, Recording};

// The largest rate, up to which an f32 holds every whole number.
const MOST_RATE: u32 = 16_777_216;

// How many passes the original makes at each run.
const PASSES: u32 = 3;

// From how many equal words on a run of them is a dropout, and fewer are sound, is a setting of the scan. This
// is what the programs keep.
pub const HELD_RUN: u32 = 16;

// The least that the setting can be, of which the gap is one sample, and the most.
pub const LEAST_HELD_RUN: u32 = 2;

pub const MOST_HELD_RUN: u32 = 4_096;

// x cut to a whole number of 64 bits, as Rust's `as`: beyond either end of the range that end, and 0 for
// a NaN. The range ends one below 2 ^ 64, which is 18446744073709551616.
fn whole_part(x: f32) -> u64
    ensures { result ≡ to_unsigned 64 x }
{
    if x < 18446744073709551616.0 {
        if -1.0 < x {
            std::num::truncating_f32_to_u64(x)
        } else {
            0
        }
    } else if x.is_nan() {
        0
    } else {
        18446744073709551615
    }
}

// The longest gap that is repaired, of a limit in milliseconds at a rate for each second, which has 1000 of
// them; at least 1.
fn longest_run(millis: f32, rate: u32) -> usize
    requires { rate ≤ 16777216 }
    ensures { result ≡ limit millis rate }
{
    let product = millis / 1000.0 * count_as_f32(rate as usize);
    whole_part(larger(product, 1.0)) as usize
}

// Whether the settings of the limit are allowed: a rate that an f32 holds, and a limit between the infinities,
// which a NaN is not.
pub fn settings_allowed(rate: u32, millis: f32) -> bool
    ensures { result ≡ allowed rate millis }
{
    let infinity: f32 = 1.0 / 0.0;
    rate <= MOST_RATE && millis < infinity && -infinity < millis
}

// Whether the setting for held words is allowed.
pub fn held_allowed(held: u32) -> bool
    ensures { result ≡ held_allowed held }
{
    LEAST_HELD_RUN <= held && held <= MOST_HELD_RUN
}

// Whether all settings of a scan are allowed.
fn scan_allowed(rate: u32, millis: f32, held: u32) -> bool
    ensures { result ≡ allowed rate millis && held_allowed held }
{
    settings_allowed(rate, millis) && held_allowed(held)
}

// Whether a sample is equal to zero or NaN.
fn is_zero_or_nan(word: u32) -> bool
    ensures { result ≡ zero_or_nan word }
{
    let x = f32_of_word(word);
    x == 0.0 || x.is_nan()
}

// Whether a silent bus can hold a word: one in range that is not zero.
fn is_holdable(word: u32) -> bool
    ensures { result ≡ holdable word }
{
    in_range(word) && f32_of_word(word) != 0.0
}

// Whether a word continues the run of the word before it. A zero or a NaN is no word that is held, so that
// the first test settles the kind.
fn continues_run(before: u32, word: u32) -> bool
    ensures { result ≡ continues before word }
{
    if is_zero_or_nan(before) {
        is_zero_or_nan(word)
    } else {
        before == word && is_holdable(word)
    }
}

// Whether a longest run begins at place i, of the places from `from` on.
fn run_begins(samples: &[u32], from: usize, i: usize) -> bool
    requires { (from ≤ i) × (i < length samples.now) }
    ensures { result ≡ run_begins samples.now from i }
{
    i == from || !continues_run(samples[i - 1], samples[i])
}

// Whether a run of `len` samples that begins with a word is long enough for a dropout: two zeros or NaN are,
// and `held` of a word that is held.
fn is_long_enough(held: usize, word: u32, len: usize) -> bool
    ensures { result ≡ long_enough held word len }
{
    if is_zero_or_nan(word) {
        2 <= len
    } else {
        is_holdable(word) && held <= len
    }
}

// How many samples of a run that begins with a word stand before its gap: the one that was measured before
// the bus held it.
fn kept_of(word: u32) -> usize
    ensures { result ≡ kept word }
{
    usize::from(is_holdable(word))
}

// Whether a gap is within the limit and touches neither end of a recording of n samples.
fn is_gap_allowed(n: usize, most: usize, start: usize, len: usize) -> bool
    requires { start + len ≤ n }
    ensures { result ≡ gap_allowed n most start len }
{
    len <= most && start != 0 && start + len < n
}

// Whether a run of `len` samples from place `start` on that begins with a word qualifies, in a recording of
// n samples.
fn run_qualifies(n: usize, most: usize, held: usize, word: u32, start: usize, len: usize) -> bool
    requires { (1 ≤ len) × (start + len ≤ n) }
    ensures { result ≡ qualifies n most held word start len }
{
    is_long_enough(held, word, len)
        && is_gap_allowed(n, most, start + kept_of(word), len - kept_of(word))
}

// The gap of the first run from place `from` on that meets every condition: the outer scan looks at each
// place, and the inner one follows a run that begins there to its end. A run that reaches the recording's
// end does not qualify, so that the inner scan has nothing to say of it. Each run is followed once, and what
// stands before place `from`, where a gap may have been filled, is not looked at.
pub fn next_run(samples: &[u32], most: usize, held: usize, from: usize) -> Option<Stretch>
    ensures { result ≡ next_run samples.now most held from }
{
    let n = samples.len();
    let mut found = None;
    // The requirements name this form: a label leaves both scans at once, with the run found.
    'search: for start in from..n {
        if run_begins(samples, from, start) {
            let word = samples[start];
            for end in start + 1..n {
                if !continues_run(samples[end - 1], samples[end]) {
                    if run_qualifies(n, most, held, word, start, end - start) {
                        let kept = kept_of(word);
                        found = Some(Stretch {
                            start: start + kept,
                            len: end - start - kept,
                        });
                        break 'search;
                    }
                    break;
                }
            }
        }
    }
    found
}

// The same of what a recording holds, which is only read.
fn next_gap(recording: &Recording, most: usize, held: usize, from: usize) -> Option<Stretch>
    ensures { result ≡ next_run recording.now.samples.now most held from }
{
    next_run(recording.samples, most, held, from)
}

// Refusals 1, 14, 2, 3 and 4, in this order; accepted, with 0, where none of them applies.
fn check_scan(recording: &Recording, rate: u32, millis: f32, held: u32) -> Answer
    ensures { result ≡ scannable rate millis held (lent.held recording.now) }
{
    recording.check_sizes()?;
    if scan_allowed(rate, millis, held) {
        Ok(0)
    } else {
        Err(Reason::Setting)
    }
}

// Writes an order at `len` places of a list from `start` on, as far as the list goes.
fn write_order(orders: &mut [u32], start: usize, len: usize, order: u32)
    ensures { orders.new ≡ sets orders.old start (replicate len order) }
{
    let end = orders.len().min(start.saturating_add(len));
    if start < end {
        set_all(orders, start, end - start, order);
    }
}

// Notes the order of the model at the places of a gap that was repaired by one: neither a refused gap has a
// model nor a straight line.
fn note_order(orders: &mut [u32], gap: Stretch, filled: Result<Filled, Reason>)
    ensures { orders.new ≡ noted gap (answer_of filled) (order_of filled) orders.old }
{
    let Ok(filled) = filled else {
        return;
    };
    if gap.len <= MAX_SOLVE {
        write_order(orders, gap.start, gap.len, filled.order);
    }
}

// Finds the dropout runs that qualify, one behind the other, where a word is held from `held` equal ones on, and
// repairs the gap of each, of at most `most` samples, with the order of its model noted at its places; a refused
// one does not end the scan.
fn repair_runs(
    recording: &mut Recording,
    most: usize,
    held: usize,
    work: &mut [f64],
    orders: &mut [u32],
) -> Scanned
    requires { length recording.old.samples.now ≤ most_samples }
    ensures memory { SameMemory recording.old recording.new }
    ensures rule { scan result.qualified result.repaired (refused_number result.refused) (lent.held recording.new) work.new
        ≡ scan_from most held 0 (length recording.old.samples.now) (scan 0 0 0 (lent.held recording.old) work.old) }
    ensures orders { orders.new
        ≡ orders_over (length work.old) (runs_of recording.old.samples.now most held) (lent.held recording.old) orders.old }
{
    let mut qualified: usize = 0;
    let mut repaired: usize = 0;
    let mut refused: Option<Reason> = None;
    let mut at: usize = 0;
    loop {
        // The requirements name this form: let-else takes the answer apart into start and length, or ends the scan.
        let Some(Stretch { start, len }) = next_gap(recording, most, held, at) else {
            break;
        };
        let filled = inpaint_gap(recording, start, len, PASSES, work);
        note_order(orders, Stretch { start, len }, filled);
        qualified += 1;
        match filled {
            Ok(_) => repaired += 1,
            Err(why) => refused = refused.or(Some(why)),
        }
        at = start + len;
    }
    Scanned {
        qualified,
        repaired,
        refused,
    }
}

// Repairs the dropouts within the limit and notes the orders of the models, or turns the scan away as a whole
// and changes nothing.
pub fn inpaint_auto(
    recording: &mut Recording,
    rate: u32,
    millis: f32,
    held: u32,
    work: &mut [f64],
    orders: &mut [u32],
) -> Scanned
    ensures memory { SameMemory recording.old recording.new }
    ensures rule { scan result.qualified result.repaired (refused_number result.refused) (lent.held recording.new) work.new
        ≡ automatic rate millis held work.old (lent.held recording.old) }
    ensures orders { orders.new ≡ scan_orders rate millis held work.old (lent.held recording.old) orders.old }
{
    if let Err(why) = check_scan(recording, rate, millis, held) {
        return Scanned {
            qualified: 0,
            repaired: 0,
            refused: Some(why),
        };
    }
    let most = longest_run(millis, rate);
    repair_runs(recording, most, held as usize, work, orders)
}
