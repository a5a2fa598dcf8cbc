// What a repair reads.
ghost use Rattle.std.specs.Prelude.{◌≡◌, ◌+◌, ◌^◌, ◌<◌, length};
ghost use Rattle.recording.specs.Recording.{readable};

use super::{Answer, Reason};
use leaves::words::in_range;

// Refusal 7 for words that stand from place `first` on, all at places that 64 bits hold; accepted, with 0, where
// all are in range.
pub fn check_words(words: &[u32], first: usize) -> Answer
    requires { first + length words.now < 2 ^ 64 }
    ensures { result ≡ readable first words.now }
{
    for (i, word) in words.iter().enumerate() {
        if !in_range(*word) {
            return Err(Reason::Read(first + i));
        }
    }
    Ok(0)
}
