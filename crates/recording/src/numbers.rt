// An answer as document 01's number and value, for callers that take numbers.
ghost use Rattle.std.specs.Prelude.{◌≡◌};
ghost use Rattle.recording.specs.Answers.{reason_number, reason_place, refusal_number, value, verdict_yes};

use super::{Answer, Reason, Verdict};

impl Reason {
    // The table's number of the reason.
    pub fn number(self) -> u32
        ensures { result ≡ reason_number self }
    {
        match self {
            Reason::Counts => 1,
            Reason::TooMany => 2,
            Reason::Used => 3,
            Reason::Setting => 4,
            Reason::Gap => 5,
            Reason::Workspace => 6,
            Reason::Read(_) => 7,
            Reason::Result(_) => 8,
            Reason::Room => 9,
            Reason::Nothing => 10,
            Reason::Malformed => 11,
            Reason::Frames => 12,
            Reason::Pieces => 13,
            Reason::Blocks => 14,
            Reason::Proposal(_) => 15,
            Reason::Version => 17,
            Reason::Stored => 18,
            Reason::Wave => 19,
            Reason::Coding => 20,
            Reason::Output => 21,
        }
    }

    // The place that a range case or a proposal's carries, and 0 for the other reasons.
    pub fn place(self) -> usize
        ensures { result ≡ reason_place self }
    {
        match self {
            Reason::Read(place) | Reason::Result(place) | Reason::Proposal(place) => place,
            _ => 0,
        }
    }
}

// 0 for an acceptance, whatever it gives, and else the number of the refusal.
pub fn number_of<T: Copy>(answer: Result<T, Reason>) -> u32
    ensures { result ≡ refusal_number answer }
{
    match answer {
        Ok(_) => 0,
        Err(why) => why.number(),
    }
}

// The m of an acceptance, the place of a refusal that carries one, and 0 for the other refusals.
pub fn value_of(answer: Answer) -> usize
    ensures { result ≡ value answer }
{
    match answer {
        Ok(m) => m,
        Err(why) => why.place(),
    }
}

// 1 for yes, and 0 for no and for a refusal.
pub fn verdict_yes(verdict: Verdict) -> u32
    ensures { result ≡ verdict_yes verdict }
{
    match verdict {
        Ok(true) => 1,
        _ => 0,
    }
}
