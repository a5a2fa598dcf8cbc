// What the readers and the writers ask of the settings of a version, whichever it is.
ghost use Rattle.std.specs.Prelude.{◌≡◌, ◌≤◌, ℕ, Bool, List, length, refl};
ghost use Rattle.std.proofs.lemmas.List.Edits.{sets};
ghost use Rattle.settings.specs.Settings.{parts_v1, parts, words_v1, words, settings_v1, settings, allowed_v1, allowed, block_bytes};
ghost use Rattle.settings.specs.Counts.{six_words, seven_words};
ghost use Rattle.std.proofs.Common.{rules};

use super::allowed::{allowed, allowed_v1};
use super::words::{settings, settings_v1, store, store_v1};
use super::{
    FIRST_VERSION, SECOND_VERSION, SETTINGS, SETTINGS_BYTES, SETTINGS_V1, SETTINGS_V1_BYTES,
    Settings, SettingsV1,
};

// Settings of a version: the number of the version, how many settings they are, and how many bytes a block of them
// has; whether they are allowed, and how they stand as words.
pub trait Stored: Copy {
    ghost VERSION: { ℕ };

    const VERSION: u32;

    ghost PARTS: { ℕ };

    const PARTS: usize;

    ghost BYTES: { ℕ };

    const BYTES: usize;

    ghost rule: { Self → Bool };

    ghost word_list: { Self → List ℕ };

    ghost settings_of: { List ℕ → Self };

    fn is_allowed(self) -> bool
        ensures { result ≡ rule self };

    fn store(self, area: &mut [u32])
        requires { PARTS ≤ length area.old }
        ensures { area.new ≡ sets area.old 0 (word_list self) };

    fn of_words(words: &[u32]) -> Self
        requires { PARTS ≤ length words.now }
        ensures { result ≡ settings_of words.now };

    ghost few: { PARTS ≤ parts };

    ghost sized: { BYTES ≡ block_bytes PARTS };

    ghost as_many: { (s : Self) → length (word_list s) ≡ PARTS };
}

impl Stored for SettingsV1 {
    ghost VERSION = { 1 };

    const VERSION: u32 = FIRST_VERSION;

    ghost PARTS = { parts_v1 };

    const PARTS: usize = SETTINGS_V1;

    ghost BYTES = { 104 };

    const BYTES: usize = SETTINGS_V1_BYTES;

    ghost rule = { allowed_v1 };

    ghost word_list = { words_v1 };

    ghost settings_of = { settings_v1 };

    fn is_allowed(self) -> bool {
        allowed_v1(self)
    }

    fn store(self, area: &mut [u32]) {
        store_v1(area, self);
    }

    fn of_words(words: &[u32]) -> Self {
        settings_v1(words)
    }

    ghost few = { Prim.search rules };

    ghost sized = { refl };

    ghost as_many = { six_words };
}

impl Stored for Settings {
    ghost VERSION = { 2 };

    const VERSION: u32 = SECOND_VERSION;

    ghost PARTS = { parts };

    const PARTS: usize = SETTINGS;

    ghost BYTES = { 120 };

    const BYTES: usize = SETTINGS_BYTES;

    ghost rule = { allowed };

    ghost word_list = { words };

    ghost settings_of = { settings };

    fn is_allowed(self) -> bool {
        allowed(self)
    }

    fn store(self, area: &mut [u32]) {
        store(area, self);
    }

    fn of_words(words: &[u32]) -> Self {
        settings(words)
    }

    ghost few = { Prim.search rules };

    ghost sized = { refl };

    ghost as_many = { seven_words };
}
