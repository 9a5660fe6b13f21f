// The questions of documents 01 and 02, by what they ask. A call that fails some of them is refused with the first.
ghost use Rattle.std.specs.Prelude.{◌≡◌};
ghost use Rattle.bars.specs.Refusals.{number, asked};

// A question that was answered "no", with its number in the documents. docs/QUESTIONS.md has the words of each.
#[derive(Clone, Copy, Debug, PartialEq, Eq)]
pub enum Question {
    MinimumLength = 1,
    MostStrokes = 2,
    Rooms = 3,
    Sound = 4,
    Time = 5,
    Prices = 6,
    Volumes = 7,
    LowAtMostHigh = 8,
    NotEarlier = 9,
    RawRoom = 10,
    UnfinishedRoom = 11,
    StrokeRoom = 12,
    Exists = 13,
    OutputRoom = 14,
    Summary = 15,
    Places = 17,
    Record = 18,
    Digits = 19,
}

impl Question {
    // Its number in the documents.
    pub fn number(self) -> u64
        ensures { result ≡ number self }
    {
        self as u64
    }
}

// The number of the question that was answered "no", and 0 where none was: as the C names and the programs tell it.
pub fn number_of<T: Copy>(r: Result<T, Question>) -> u64
    ensures { result ≡ asked r }
{
    match r {
        Ok(_) => 0,
        Err(q) => q.number(),
    }
}
