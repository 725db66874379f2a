// Why an input is refused, and the first of several checks that refuses.
ghost use Rattle.std.specs.Prelude.{◌≡◌};
ghost use Rattle.leaf.specs.Answers.{number_of, place_of, ensured};

// The refusals of document 01, each with its number on paper. Two have a place beside it: that of the first fault.
#[derive(Clone, Copy, Debug, PartialEq, Eq)]
pub enum Refusal {
    // 1: a card's area that ends before its byte 2, or before its record does.
    AreaTooShort,
    // 2: a card of version 0; to the writer and the opening, of a version that there is not.
    NoSuchVersion,
    // 3: a card newer than the highest version that its reader knows.
    VersionTooNew,
    // 4: a length field that is not its version's length.
    WrongLength,
    // 5: a setting out of range.
    OutOfRange { place: u8 },
    // 6: a reader whose highest version there is not.
    NoSuchReader,
    // 7: a train type that there is not, or that is faster than vmax.
    WrongTrain,
    // 8: a session out of its ranges.
    SessionOutOfRange,
    // 9: a beacon, a button or a mode out of range.
    SampleOutOfRange,
    // 10: more travel in a sample than a train can do.
    TooFast,
    // 11: a mode that changes while the train is not at standstill.
    ModeWhileMoving,
    // 12: a bad tone sheet.
    BadSheet { place: u8 },
    // 13: a buffer shorter than the record to be written.
    NoRoom,
    // 14: a bad recording.
    BadRecording,
}

impl Refusal {
    // The number on paper. By a match, since two cases have a place beside them, so that it is no cast (`number_of`).
    pub fn number(self) -> u8
        ensures { result ≡ number_of self }
    {
        match self {
            Refusal::AreaTooShort => 1,
            Refusal::NoSuchVersion => 2,
            Refusal::VersionTooNew => 3,
            Refusal::WrongLength => 4,
            Refusal::OutOfRange { .. } => 5,
            Refusal::NoSuchReader => 6,
            Refusal::WrongTrain => 7,
            Refusal::SessionOutOfRange => 8,
            Refusal::SampleOutOfRange => 9,
            Refusal::TooFast => 10,
            Refusal::ModeWhileMoving => 11,
            Refusal::BadSheet { .. } => 12,
            Refusal::NoRoom => 13,
            Refusal::BadRecording => 14,
        }
    }

    // The place that stands beside the number, if one does.
    pub fn place(self) -> Option<u8>
        ensures { result ≡ place_of self }
    {
        match self {
            Refusal::OutOfRange { place } | Refusal::BadSheet { place } => Some(place),
            _ => None,
        }
    }
}

// The refusal, where the test fails: with `?` behind each check, in the order in which they are due.
pub fn ensure(test: bool, why: Refusal) -> Result<(), Refusal>
    ensures { result ≡ ensured test why }
{
    if test { Ok(()) } else { Err(why) }
}
