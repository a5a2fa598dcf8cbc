// Settings as words in the order of the parts, floats as their patterns. Each version has functions of its own, since
// its fields are its own; what readers and writers do with either is generic, by the trait `Stored`, which calls them.
ghost use Rattle.std.specs.Prelude.{◌≡◌, ◌≤◌, length};
ghost use Rattle.std.proofs.lemmas.List.Edits.{sets};
ghost use Rattle.settings.specs.Settings.{parts_v1, parts, words_v1, words, settings_v1, settings};

use super::{Settings, SettingsV1};
use leaves::words::{f32_of_word, word_of_f32};

// Stores the words of the settings of version 1 in the first places; the others stay.
pub fn store_v1(area: &mut [u32], settings: SettingsV1)
    requires { parts_v1 ≤ length area.old }
    ensures { area.new ≡ sets area.old 0 (words_v1 settings) }
{
    area[0] = word_of_f32(settings.threshold);
    area[1] = word_of_f32(settings.sensitivity);
    area[2] = word_of_f32(settings.strength);
    area[3] = settings.bits;
    area[4] = word_of_f32(settings.longest);
    area[5] = settings.rate;
}

// Stores those of version 2: the held run's length behind the others.
#[tactic(auto, unfolding(crate::specs::Settings::words, crate::specs::Settings::words_v1))]
pub fn store(area: &mut [u32], settings: Settings)
    requires { parts ≤ length area.old }
    ensures { area.new ≡ sets area.old 0 (words settings) }
{
    store_v1(area, settings.first);
    area[6] = settings.held;
}

// The settings of version 1 that the first words stand for.
pub fn settings_v1(words: &[u32]) -> SettingsV1
    requires { parts_v1 ≤ length words.now }
    ensures { result ≡ settings_v1 words.now }
{
    SettingsV1 {
        threshold: f32_of_word(words[0]),
        sensitivity: f32_of_word(words[1]),
        strength: f32_of_word(words[2]),
        bits: words[3],
        longest: f32_of_word(words[4]),
        rate: words[5],
    }
}

// Those of version 2.
#[tactic(auto, unfolding(crate::specs::Settings::settings))]
pub fn settings(words: &[u32]) -> Settings
    requires { parts ≤ length words.now }
    ensures { result ≡ settings words.now }
{
    Settings {
        first: settings_v1(words),
        held: words[6],
    }
}
