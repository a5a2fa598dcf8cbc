// The writers of a stored block: refusals 6 and 18, or the block; and both from settings as words.
ghost use Rattle.std.specs.Prelude.{◌≡◌, ◌<◌, ◌≤◌, length, replicate};
ghost use Rattle.std.proofs.lemmas.List.Edits.{sets};
ghost use Rattle.settings.specs.Settings.{parts, block_of, block_bytes, left, stored, from_words, write_v1, write, write_from_v1, write_from};

use super::stored::Stored;
use super::{SETTINGS, Settings, SettingsV1, VERSION_BYTES};
use contents::{bodies_at, write_table};
use recording::{Answer, Reason};
use wire::store_word;

// Writes a block of a version with these words in the first bytes; the others stay. Each word is a body of four
// bytes: `lens` says so of each of them.
fn write_block(room: &mut [u8], version: u32, words: &[u32], lens: &[u32])
    requires { (length words.now ≤ parts) × (block_bytes (length words.now) ≤ length room.old)
        × (lens.now ≡ replicate (length words.now) 4) }
    ensures { room.new ≡ sets room.old 0 (block_of version words.now) }
{
    store_word(room, 0, version);
    write_table(room, VERSION_BYTES, lens);
    let bodies = bodies_at(VERSION_BYTES, words.len());
    for (k, word) in words.iter().enumerate() {
        store_word(room, bodies + 4 * k, *word);
    }
}

// Writes the block of a version, with its number of bytes as the answer; or refusals 6 and 18, with nothing
// written.
fn write_stored<S: Stored>(settings: S, room: &mut [u8]) -> Answer
    ensures { left result room.new ≡ stored S.VERSION (S.word_list settings) (S.rule settings) room.old }
{
    let count = S::PARTS;
    let bytes = S::BYTES;
    if room.len() < bytes {
        return Err(Reason::Workspace);
    }
    if !settings.is_allowed() {
        return Err(Reason::Stored);
    }
    let mut list = [0u32; SETTINGS];
    let words = &mut list[..count];
    settings.store(words);
    write_block(room, S::VERSION, words, &[4u32; SETTINGS][..count]);
    Ok(bytes)
}

// Writes the block of version 1.
#[tactic(auto, unfolding(crate::specs::Settings::write_v1))]
pub fn write_v1(settings: SettingsV1, room: &mut [u8]) -> Answer
    ensures { left result room.new ≡ write_v1 settings room.old }
{
    write_stored(settings, room)
}

// Writes the block of version 2.
#[tactic(auto, unfolding(crate::specs::Settings::write))]
pub fn write(settings: Settings, room: &mut [u8]) -> Answer
    ensures { left result room.new ≡ write settings room.old }
{
    write_stored(settings, room)
}

// The writer of a version from settings as words, of which the first count: 6 where they are fewer than the version
// has.
fn write_words<S: Stored>(words: &[u32], room: &mut [u8]) -> Answer
    ensures { left result room.new ≡ from_words S.PARTS words.now room.old
        (stored S.VERSION (S.word_list (S.settings_of words.now)) (S.rule (S.settings_of words.now)) room.old) }
{
    if words.len() < S::PARTS {
        return Err(Reason::Workspace);
    }
    write_stored(S::of_words(words), room)
}

// The writer of version 1 from six settings as words.
#[tactic(auto, unfolding(crate::specs::Settings::write_from_v1, crate::specs::Settings::write_v1))]
pub fn write_from_v1(words: &[u32], room: &mut [u8]) -> Answer
    ensures { left result room.new ≡ write_from_v1 words.now room.old }
{
    write_words::<SettingsV1>(words, room)
}

// The writer of version 2, from seven.
#[tactic(auto, unfolding(crate::specs::Settings::write_from, crate::specs::Settings::write))]
pub fn write_from(words: &[u32], room: &mut [u8]) -> Answer
    ensures { left result room.new ≡ write_from words.now room.old }
{
    write_words::<Settings>(words, room)
}
