ghost use Rattle.std.specs.Prelude.{◌≡◌, Some};
ghost use Rattle.voxels.specs.Refusals.{number_of};
ghost use Rattle.voxels.specs.Texts.{refusal_text};

use std::fmt;

// Why a call was refused, with the number that labs and suppliers know the reason by.
#[derive(Clone, Copy, PartialEq, Eq, Debug)]
pub enum Reason {
    NoMap = 1,
    ShortPage = 2,
    NoLineFeed = 3,
    MalformedLine = 4,
    MisplacedLine = 5,
    TickOutside = 6,
    TooManyReturns = 7,
    NotEmpty = 8,
    MissingPair = 9,
    PairBelowVoxels = 10,
    UnmergedPair = 11,
    TrailingBytes = 12,
    NotOpen = 13,
    OutOfRange = 14,
    BlockLimit = 15,
    MalformedMove = 16,
    MoveOutside = 17,
    ShortOutput = 18,
    RaggedMask = 19,
    TooManyRuns = 20,
    EmptyRun = 21,
    RunNotAbove = 22,
    RunPastEnd = 23,
}

// A reason and the place that it speaks of, 0 where there is none.
#[derive(Clone, Copy, PartialEq, Eq, Debug)]
pub struct Refusal {
    pub reason: Reason,
    pub place: u32,
}

impl Reason {
    pub fn number(self) -> u8
        ensures { result ≡ number_of self }
    {
        self as u8
    }

    // The refusal for this reason at a place.
    pub fn at(self, place: u32) -> Refusal
        ensures { result ≡ record { reason = self; place = place } }
    {
        Refusal {
            reason: self,
            place,
        }
    }
}

// A refusal that speaks of no place.
impl From<Reason> for Refusal {
    ghost from_gives = { λ reason refusal. refusal ≡ record { reason = reason; place = 0 } };

    fn from(reason: Reason) -> Refusal {
        reason.at(0)
    }
}

impl fmt::Display for Refusal {
    ghost output = { λ refusal. Some (refusal_text refusal) };

    fn fmt<W: fmt::Write>(&self, f: &mut fmt::Formatter<W>) -> fmt::Result {
        write!(f, "refused {} at {}", self.reason.number(), self.place)
    }
}
