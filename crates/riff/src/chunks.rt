// The chunks of a RIFF file: a walk from head to head. No byte outside the file is looked at.
ghost use Rattle.std.specs.Prelude.{◌≡◌, ◌+◌, ◌≤◌, true, length, ◌==◌};
ghost use Rattle.riff.specs.Chunks.{head_bytes, padded, named, end_from};
ghost use Rattle.riff.specs.Wav.{first_chunk, first_named};

use super::{FIRST_CHUNK, HEAD_BYTES};
use wire::word_at;

// The bytes that a body of this size takes: one of odd size is followed by a pad byte.
fn padded(size: u32) -> usize
    ensures { result ≡ padded size }
{
    size as usize + size as usize % 2
}

// Whether the chunks, with their pad bytes, end where the file ends. A body that would run past the end is seen
// by how many bytes are left, so that no sum overflows.
pub fn chunks_fill(file: &[u8]) -> bool
    requires { first_chunk ≤ length file.now }
    ensures { result ≡ (end_from file.now first_chunk == length file.now) }
{
    let mut at = FIRST_CHUNK;
    // No count of turns is known before the walk, since each chunk says how far it is to the next.
    while HEAD_BYTES <= file.len() - at {
        let taken = padded(word_at(file, at + 4));
        if file.len() - at - HEAD_BYTES < taken {
            return false;
        }
        at += HEAD_BYTES + taken;
    }
    at == file.len()
}

// Whether the chunk that begins at byte i has this name and at least so many bytes.
fn is_named(file: &[u8], i: usize, name: u32, fewest: u32) -> bool
    requires { i + head_bytes ≤ length file.now }
    ensures { result ≡ named file.now name fewest i }
{
    word_at(file, i) == name && fewest <= word_at(file, i + 4)
}

// Where the first chunk of this name with at least so many bytes begins, or the file's length where there is
// none. The chunks fill the file, so that at each of them a whole head is left.
pub fn first_named(file: &[u8], name: u32, fewest: u32) -> usize
    requires { end_from file.now first_chunk ≡ length file.now }
    ensures { result ≡ first_named name fewest file.now }
{
    let mut at = FIRST_CHUNK;
    // As above, each chunk says how far it is to the next.
    while at < file.len() {
        if is_named(file, at, name, fewest) {
            return at;
        }
        at += HEAD_BYTES + padded(word_at(file, at + 4));
    }
    at
}
