// Numbers as bytes, the lowest byte first: one of 16 bits, one of 32, and a row of words; and the bytes of
// each. One function for both sizes would be no plainer: the library reads and writes each size by a function of
// its own, so that a trait would have to hand these two on, and every caller knows the size.
#![tactic(auto)]

ghost use Rattle.std.specs.Prelude.{◌≡◌, ◌+◌, ◌*◌, ◌≤◌, length};
ghost use Rattle.std.proofs.lemmas.List.Edits.{sets};
ghost use Rattle.wire.specs.Wire.{half_at, word_at, decoded, bytes_of, encoded, half_bytes};

// The number of the two bytes from place i on: the second counts 256 times.
pub fn half_at(bytes: &[u8], i: usize) -> u16
    requires { i + 2 ≤ length bytes.now }
    ensures { result ≡ half_at bytes.now i }
{
    u16::from_le_bytes([bytes[i], bytes[i + 1]])
}

// The word of the four bytes from place i on: each counts 256 times as much as the one before.
pub fn word_at(bytes: &[u8], i: usize) -> u32
    requires { i + 4 ≤ length bytes.now }
    ensures { result ≡ word_at bytes.now i }
{
    u32::from_le_bytes([bytes[i], bytes[i + 1], bytes[i + 2], bytes[i + 3]])
}

// Stores `count` words, from place `at` on, which are those of the bytes from `from` on; the others stay.
pub fn decode(bytes: &[u8], from: usize, words: &mut [u32], at: usize, count: usize)
    requires { (from + 4 * count ≤ length bytes.now) × (at + count ≤ length words.old) }
    ensures { words.new ≡ sets words.old at (decoded bytes.now from count) }
{
    for i in 0..count {
        words[at + i] = word_at(bytes, from + 4 * i);
    }
}

// Stores the four bytes of a word from place i on; the others stay.
pub fn store_word(bytes: &mut [u8], i: usize, word: u32)
    requires { i + 4 ≤ length bytes.old }
    ensures { bytes.new ≡ sets bytes.old i (bytes_of word) }
{
    bytes[i..i + 4].copy_from_slice(&word.to_le_bytes());
}

// Stores the two bytes of a number of 16 bits from place i on; the others stay.
pub fn store_half(bytes: &mut [u8], i: usize, half: u16)
    requires { i + 2 ≤ length bytes.old }
    ensures { bytes.new ≡ sets bytes.old i (half_bytes half) }
{
    bytes[i..i + 2].copy_from_slice(&half.to_le_bytes());
}

// Stores the bytes of words, one behind the other, from place `at` on; the others stay.
pub fn encode(words: &[u32], bytes: &mut [u8], at: usize)
    requires { at + 4 * length words.now ≤ length bytes.old }
    ensures { bytes.new ≡ sets bytes.old at (encoded words.now) }
{
    for (i, word) in words.iter().enumerate() {
        store_word(bytes, at + 4 * i, *word);
    }
}
