// A contents table: how many parts there are, and of each its number, where its body begins and how long it is.
// The bodies follow it, touching. So many bytes may stand before the table.
#![tactic(auto)]

ghost use Rattle.std.specs.Prelude.{◌≡◌, [], ◌∷◌, ◌+◌, ◌*◌, ◌≤◌, ◌<◌, length, get_or};
ghost use Rattle.std.proofs.lemmas.List.Edits.{sets};
ghost use Rattle.wire.specs.Wire.{encoded, Below, words_to};
ghost use Rattle.contents.specs.Contents.{table_bytes, table, lengths_in, laid_out};

use wire::{store_word, word_at};

// The bytes of the number of parts, and of a part's row: its number, its offset and its length, of four bytes each.
const COUNT_BYTES: usize = 4;

const ROW_BYTES: usize = 12;

// How many bytes stand before the first body.
pub fn bodies_at(before: usize, parts: usize) -> usize
    requires { before + table_bytes parts < words_to }
    ensures { result ≡ before + table_bytes parts }
{
    before + (COUNT_BYTES + ROW_BYTES * parts)
}

// Whether the bytes are what stands before the table, a table of so many parts, their bodies, and nothing more:
// each row has the number that is its turn, and its body begins where the one before it ended. An offset has 32
// bits, so that what equals one and a length more do not overflow.
pub fn is_laid_out(bytes: &[u8], before: usize, parts: usize) -> bool
    requires { before + table_bytes parts < words_to }
    ensures { result ≡ laid_out before parts bytes.now }
{
    let mut at = bodies_at(before, parts);
    if bytes.len() < at || word_at(bytes, before) as usize != parts {
        return false;
    }
    for k in 0..parts {
        let row = before + COUNT_BYTES + ROW_BYTES * k;
        if word_at(bytes, row) as usize != k + 1 || word_at(bytes, row + 4) as usize != at {
            return false;
        }
        at += word_at(bytes, row + 8) as usize;
    }
    at == bytes.len()
}

// The length that the table tells of a part, counted from 0.
pub fn length_of(bytes: &[u8], before: usize, parts: usize, k: usize) -> u32
    requires { (k < parts) × (before + table_bytes parts ≤ length bytes.now) }
    ensures { result ≡ get_or (lengths_in before parts bytes.now) k 0 }
{
    word_at(bytes, before + COUNT_BYTES + ROW_BYTES * k + 8)
}

// Writes a row of the table from byte i on.
fn write_row(bytes: &mut [u8], i: usize, number: u32, offset: u32, len: u32)
    requires { i + 12 ≤ length bytes.old }
    ensures { bytes.new ≡ sets bytes.old i (encoded (number ∷ offset ∷ len ∷ [])) }
{
    store_word(bytes, i, number);
    store_word(bytes, i + 4, offset);
    store_word(bytes, i + 8, len);
}

// Writes the table of parts whose bodies have these lengths behind the bytes before it: the first body begins
// behind the table, and each of the others where the one before it ends. The bodies are not written.
pub fn write_table(bytes: &mut [u8], before: usize, lens: &[u32])
    requires { (before + table_bytes (length lens.now) ≤ length bytes.old) × (before + table_bytes (length lens.now) < words_to)
        × Below words_to (table before lens.now) }
    ensures { bytes.new ≡ sets bytes.old before (encoded (table before lens.now)) }
{
    let parts = lens.len();
    store_word(bytes, before, parts as u32);
    let mut offset = bodies_at(before, parts);
    for (k, len) in lens.iter().enumerate() {
        let row = before + COUNT_BYTES + ROW_BYTES * k;
        write_row(bytes, row, (k + 1) as u32, offset as u32, *len);
        offset += *len as usize;
    }
}
