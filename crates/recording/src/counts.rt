// Block counts: for each block of 256 samples, how many of its marks say something else than measured.
ghost use Rattle.std.specs.Prelude.{◌≡◌, ◌<◌, length};
ghost use Rattle.recording.specs.Recording.{saved_at, places, old_marks};
ghost use Rattle.recording.specs.Counts.{block_of, blocks, counted_mark, count_of, counted, recounted};
ghost use Rattle.recording.specs.Inner.{Recountable};

use super::marks::Mark;

// The number of samples in a block; the last one may have fewer.
pub const BLOCK: usize = 256;

// How many blocks n samples make: the whole ones, and one for what is left, if anything is.
pub fn block_count(n: usize) -> usize
    ensures { result ≡ blocks n }
{
    n.div_ceil(BLOCK)
}

// What a mark adds to the count of its block.
fn counted_mark(mark: u8) -> u16
    ensures { result ≡ counted_mark mark }
{
    u16::from(mark != Mark::Measured as u8)
}

// The count of a block, from its marks, one after the other.
fn count_block(marks: &[u8], block: usize) -> u16
    requires { block < blocks (length marks.now) }
    ensures { result ≡ count_of marks.now block }
{
    let begin = block * BLOCK;
    let size = (marks.len() - begin).min(BLOCK);
    let mut count: u16 = 0;
    for i in 0..size {
        count += counted_mark(marks[begin + i]);
    }
    count
}

// Every block is counted, one after the other.
pub fn count_all(marks: &[u8], counts: &mut [u16])
    requires { length counts.old ≡ blocks (length marks.now) }
    ensures { counts.new ≡ counted marks.now }
{
    for next in 0..counts.len() {
        counts[next] = count_block(marks, next);
    }
}

// The block of the place that stands in a journal word.
fn block_of(word: u32) -> usize
    ensures { result ≡ block_of word }
{
    word as usize / BLOCK
}

// Recounts the blocks of the m samples that are saved from journal word `begin` on, each as often as another
// block comes before it: once, since places rise. `last` is the block recounted last, and at first the
// number of counts, which is no block.
pub fn recount(marks: &[u8], counts: &mut [u16], journal: &[u32], begin: usize, m: usize)
    requires { Recountable marks.now counts.old journal.now begin m }
    ensures { counts.new
        ≡ recounted marks.now (places (old_marks (saved_at journal.now begin m))) counts.old }
{
    let mut last = counts.len();
    for i in 0..m {
        let block = block_of(journal[begin + 3 * i]);
        if block != last {
            counts[block] = count_block(marks, block);
            last = block;
        }
    }
}
