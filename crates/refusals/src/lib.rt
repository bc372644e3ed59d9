// Document 01's refusals, one variant a case with its number. A group of tests answers Result<(), Refusal>, the first refusal that applies.
#![tactic(auto)]

ghost use Rattle.std.specs.Prelude.{◌≡◌};
ghost use Rattle.refusals.specs.Number.{number_of};

#[derive(Clone, Copy, Debug, PartialEq, Eq)]
pub enum Refusal {
    FrameLists = 1,
    UnitNumbers = 2,
    Turnovers = 3,
    RandomNumbers = 4,
    PanelSize = 5,
    ResultBuffer = 6,
    OldPanel = 7,
    NoStep = 8,
    UnitLists = 9,
    BaseWeights = 10,
    Shares = 11,
    StartIndex = 12,
    Relatives = 13,
    Sectors = 14,
    StreamLength = 15,
    UnknownCommand = 16,
    CutShort = 17,
    Place = 18,
    State = 19,
    FrameFull = 20,
    LowWeight = 21,
    WeightSum = 22,
    FigureRange = 23,
    ClosesSpent = 24,
    TestLoad = 33,
    Sample = 31,
    RegisterLine = 34,
    RegisterRoom = 35,
    SheetLine = 32,
    Writing = 27,
    PreviousSample = 25,
    Births = 26,
    YearRoom = 28,
    OutsideShare = 29,
    PreviousLists = 30,
}

// The number that document 01 gives the case. (Written out: no derive gives it.)
impl From<Refusal> for u32 {
    ghost from_gives = { λ why result. result ≡ number_of why };

    fn from(why: Refusal) -> u32 {
        why as u32
    }
}
