// Settings kept on the recorder: a stored block of a version, a contents table and a word for each setting. It
// is read into settings by value and written from them.
#![tactic(auto)]

pub mod allowed;
pub mod read;
pub mod stored;
pub mod words;
pub mod write;

// How many settings a block of version 1 has, and one of version 2.
pub const SETTINGS_V1: usize = 6;

pub const SETTINGS: usize = 7;

// How many bytes such a block has.
pub const SETTINGS_V1_BYTES: usize = 104;

pub const SETTINGS_BYTES: usize = 120;

// The versions that there are.
pub const FIRST_VERSION: u32 = 1;

pub const SECOND_VERSION: u32 = 2;

// The bytes of the version, which leads a block.
const VERSION_BYTES: usize = 4;

// The settings of version 1, in the order of their parts.
#[derive(Clone, Copy)]
pub struct SettingsV1 {
    // From which magnitude on a sample is clipped.
    pub threshold: f32,
    // How readily decrackle takes a sample for crackle.
    pub sensitivity: f32,
    // How far dequantize moves a sample.
    pub strength: f32,
    // The bits that samples were recorded with.
    pub bits: u32,
    // The longest gap that a scan repairs, in milliseconds, and the samples of a second.
    pub longest: f32,
    pub rate: u32,
}

// The settings of version 2: those of version 1, and from how many equal words on a scan takes a run for held.
#[derive(Clone, Copy)]
pub struct Settings {
    pub first: SettingsV1,
    pub held: u32,
}
