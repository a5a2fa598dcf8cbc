// WAV in and out: mono 16-bit PCM, read from a RIFF WAVE file into samples and marks, and written as one.
#![tactic(auto)]

pub mod chunks;
pub mod read;
pub mod value;
pub mod write;

// The names of chunks, and of the file, as the words that their four letters are.
const RIFF: u32 = 0x4646_4952;

const WAVE: u32 = 0x4556_4157;

const FMT: u32 = 0x2074_6d66;

const DATA: u32 = 0x6174_6164;

// The bytes before the first chunk, and those of a chunk's head, its name and its size.
const FIRST_CHUNK: usize = 12;

const HEAD_BYTES: usize = 8;

// The bytes that a fmt chunk has at least, and has where we write it.
const FMT_BYTES: u32 = 16;

// The format tag of PCM, and the bits of a sample.
const PCM: u16 = 1;

const SAMPLE_BITS: u16 = 16;

// What was read of a file: so many samples, and their rate.
#[derive(Clone, Copy)]
pub struct WavRead {
    pub samples: usize,
    pub rate: u32,
}
