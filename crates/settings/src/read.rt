// The readers of a stored block: refusals 17 and 18, or the settings by value; and both with a lent area.
ghost use Rattle.std.specs.Prelude.{◌≡◌, ◌≤◌};
ghost use Rattle.settings.specs.Settings.{parts, formed, kept_in, read_v1, read, read_into};
ghost use Rattle.settings.specs.Settings.{left, read_to_v1, read_to};

use super::stored::Stored;
use super::{FIRST_VERSION, SECOND_VERSION, SETTINGS, Settings, SettingsV1, VERSION_BYTES};
use contents::{bodies_at, is_laid_out, length_of};
use inpaint::auto::HELD_RUN;
use recording::{Answer, Reason};
use wire::{decode, word_at};

// Whether the bytes are a block of so many settings: a version, a contents table, and a body of one word for
// each. The table is tested first and for itself, since only then a length may be asked for.
fn is_formed(block: &[u8], count: usize) -> bool
    requires { count ≤ parts }
    ensures { result ≡ formed count block.now }
{
    if !is_laid_out(block, VERSION_BYTES, count) {
        return false;
    }
    for k in 0..count {
        if length_of(block, VERSION_BYTES, count, k) != 4 {
            return false;
        }
    }
    true
}

// What a block of a version keeps: its words are copied, and read and judged as the version has them.
fn of_block<S: Stored>(block: &[u8]) -> Result<S, Reason>
    ensures { result ≡ kept_in S.PARTS S.settings_of S.rule block.now }
{
    let count = S::PARTS;
    if !is_formed(block, count) {
        return Err(Reason::Stored);
    }
    let mut room = [0u32; SETTINGS];
    let words = &mut room[..count];
    decode(block, bodies_at(VERSION_BYTES, count), words, 0, count);
    let found = S::of_words(words);
    if !found.is_allowed() {
        return Err(Reason::Stored);
    }
    Ok(found)
}

// The version 1 reader: it knows no other version.
pub fn read_v1(block: &[u8]) -> Result<SettingsV1, Reason>
    ensures { result ≡ read_v1 block.now }
{
    if block.len() < VERSION_BYTES {
        return Err(Reason::Stored);
    }
    if word_at(block, 0) != FIRST_VERSION {
        return Err(Reason::Version);
    }
    of_block(block)
}

// The new reader: it knows versions 1 and 2. Settings of version 1 get the held run's length beside them that the
// scan had before it was a setting.
pub fn read(block: &[u8]) -> Result<Settings, Reason>
    ensures { result ≡ read block.now }
{
    if block.len() < VERSION_BYTES {
        return Err(Reason::Stored);
    }
    let version = word_at(block, 0);
    if version == FIRST_VERSION {
        return Ok(Settings {
            first: of_block(block)?,
            held: HELD_RUN,
        });
    }
    if version == SECOND_VERSION {
        return of_block(block);
    }
    Err(Reason::Version)
}

// What a reader gave, as words in an area: refusal 6, or the reader's own, with nothing written, or the words stand in
// the first places. The answer has how many.
fn read_into<S: Stored>(kept: Result<S, Reason>, area: &mut [u32]) -> Answer
    ensures { left result area.new ≡ read_into S.PARTS S.word_list kept area.old }
{
    if area.len() < S::PARTS {
        return Err(Reason::Workspace);
    }
    kept?.store(area);
    Ok(S::PARTS)
}

// The version 1 reader with such an area: refusals 6, 17 and 18.
#[tactic(auto, unfolding(crate::specs::Settings::read_to_v1))]
pub fn read_to_v1(block: &[u8], area: &mut [u32]) -> Answer
    ensures { left result area.new ≡ read_to_v1 block.now area.old }
{
    read_into(read_v1(block), area)
}

// The new reader likewise.
#[tactic(auto, unfolding(crate::specs::Settings::read_to))]
pub fn read_to(block: &[u8], area: &mut [u32]) -> Answer
    ensures { left result area.new ≡ read_to block.now area.old }
{
    read_into(read(block), area)
}
