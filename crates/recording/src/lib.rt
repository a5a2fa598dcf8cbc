// The recording: samples, a mark for each that says measured or made, a count for each block of marks, and
// a journal of what repairs overwrote. Here are the answers that every call gives, opening, the commit of
// an accepted repair, undo, and the question whether a span was measured.
#![tactic(auto)]

pub mod clear;
pub mod commit;
pub mod counts;
pub mod marks;
pub mod numbers;
pub mod open;
pub mod question;
pub mod read;
pub mod undo;

// Why a call is turned away, in the order of document 01's table, whose first line is number 1. The
// two range cases carry the lowest place of a sample out of range, and a proposal's the lowest place that
// breaks its rule.
#[derive(Clone, Copy)]
pub enum Reason {
    // 1: marks and samples differ in number.
    Counts,
    // 2: more than 1,048,576 samples.
    TooMany,
    // 3: used exceeds the journal's length.
    Used,
    // 4: a setting is not allowed.
    Setting,
    // 5: the gap is empty, or not within the recording.
    Gap,
    // 6: the workspace is shorter than needed.
    Workspace,
    // 7: a sample that the repair reads is not in range.
    Read(usize),
    // 8: a result at a named sample is not in range.
    Result(usize),
    // 9: the journal has too few free words.
    Room,
    // 10: there is nothing to undo.
    Nothing,
    // 11: the last entry is malformed.
    Malformed,
    // 12: the bus's input is not whole frames, or the room for its samples or marks is short.
    Frames,
    // 13: the crackle detector was given other than as many samples as were announced, or its run has stopped
    // or ended.
    Pieces,
    // 14: the number of counts is not that of the blocks.
    Blocks,
    // 15: the proposal has another length than the recording, with place 0, or breaks its rule at this place.
    Proposal(usize),
    // 17: the version of the stored settings is not known.
    Version,
    // 18: the stored settings are malformed, without a version among it, or one of them is not allowed.
    Stored,
    // 19: not a whole RIFF WAVE file with fmt before data and an even data length.
    Wave,
    // 20: not mono 16-bit PCM.
    Coding,
    // 21: the room for what is given out is short.
    Output,
}

// A recording in memory that is lent: the samples as words, a mark for each, a count for each block of marks,
// the journal and how many of its words are used. What a repair or an undo works on.
#[derive(Drop)]
pub struct Recording<'a> {
    pub samples: &'a mut [u32],
    pub marks: &'a mut [u8],
    pub counts: &'a mut [u16],
    pub journal: &'a mut [u32],
    pub used: &'a mut usize,
}

// How a call ends: accepted, with the number of samples that it named or took back, or refused.
pub type Answer = Result<usize, Reason>;

// What the question whether a span was measured gives: yes or no, or why it is turned away.
pub type Verdict = Result<bool, Reason>;
