// Why a call refuses its input: the fault, and the place of it.
#![tactic(auto)]

ghost use Rattle.std.specs.Prelude.{◌≡◌, ◌<◌};
ghost use Rattle.refusals.specs.Refusals.{fault_number};

// What can be wrong, in the order of the scope's numbers. `include/panel.h` has the same names, and says what the place is for each.
#[derive(Clone, Copy, Debug, PartialEq, Eq)]
pub enum Fault {
    CutShort,
    UnknownCommand,
    AfterEnd,
    TooMany,
    LabelTooHigh,
    NotDeclared,
    Repeated,
    NothingDeclared,
    LocationNotCleared,
    ReadUp,
    WriteDown,
    TooManyCandidates,
    NoCandidate,
    ReadExposes,
    WriteExposes,
    ShortBuffer,
    PairMeets,
}

impl Fault {
    // The number of the fault, for callers that have no enums: from 1 to 17.
    pub fn number(self) -> u8
        ensures value { result ≡ fault_number self }
        ensures upper_bound { result < 18 }
    {
        match self {
            Fault::CutShort => 1,
            Fault::UnknownCommand => 2,
            Fault::AfterEnd => 3,
            Fault::TooMany => 4,
            Fault::LabelTooHigh => 5,
            Fault::NotDeclared => 6,
            Fault::Repeated => 7,
            Fault::NothingDeclared => 8,
            Fault::LocationNotCleared => 9,
            Fault::ReadUp => 10,
            Fault::WriteDown => 11,
            Fault::TooManyCandidates => 12,
            Fault::NoCandidate => 13,
            Fault::ReadExposes => 14,
            Fault::WriteExposes => 15,
            Fault::ShortBuffer => 16,
            Fault::PairMeets => 17,
        }
    }

    pub fn at(self, place: usize) -> Refusal
        ensures { result ≡ record { fault = self; place = place } }
    {
        Refusal { fault: self, place }
    }
}

// A fault, and where it is: a byte's offset, the number of a block, edge, pair or position, or the room that is needed.
#[derive(Clone, Copy, Debug, PartialEq, Eq)]
pub struct Refusal {
    pub fault: Fault,
    pub place: usize,
}
