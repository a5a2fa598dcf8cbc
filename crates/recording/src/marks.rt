// The marks, one byte for each sample: what each says of its sample, and which of them a repair sets.
ghost use Rattle.std.specs.Prelude.{◌≡◌};
ghost use Rattle.recording.specs.Marks.{made, byte_of};

// What a mark says of its sample. Its byte is its number.
#[derive(Clone, Copy, PartialEq, Eq)]
pub enum Mark {
    // The sample is as it came from the pump.
    Measured = 0,
    // The model filled it, in a gap.
    GapByModel = 1,
    // A straight line filled it, in a gap longer than the model takes.
    GapByLine = 2,
    // Cubic declip bridged it.
    CubicDeclip = 3,
    // Decrackle redrew it, from the old start.
    Decrackle = 4,
    // Dequantize moved it, in either form.
    Dequantize = 5,
    // The bus lost its frame: the sample was not received, and the word that stands there is a NaN.
    NotReceived = 6,
    // Decrackle redrew it, from the mean.
    DecrackleFromMean = 7,
    // Another program proposed it, for a clipped sample.
    DeclipProposed = 8,
}

impl Mark {
    // Its byte.
    pub fn byte(self) -> u8
        ensures { result ≡ byte_of self }
    {
        self as u8
    }
}

// Whether a journal word is a mark that a repair sets: 1 to 5, 7 and 8.
pub fn is_made(word: u32) -> bool
    ensures { result ≡ made word }
{
    Mark::GapByModel as u32 <= word && word <= Mark::Dequantize as u32
        || word == Mark::DecrackleFromMean as u32
        || word == Mark::DeclipProposed as u32
}
