// Definitions and laws that every layer shares, and the type by which the code refuses: specs/ has the definitions, proofs/ the laws.
#![tactic(auto)]

ghost use Rattle.std.specs.Prelude.{◌≡◌};
ghost use Rattle.theory_laws.specs.Refusals.{number_of};

// Why a call is refused: the question that was answered with no, with its number (SPECIFICATION 8.2). 20 is retired; 34 and 35 are not given yet.
#[derive(Clone, Copy, Debug, PartialEq, Eq)]
pub enum Refusal {
    NoInverse = 1,
    NotWholeWords = 2,
    NotBits = 3,
    Parameters = 4,
    Length = 5,
    Variable = 6,
    Domain = 7,
    ValueCount = 8,
    Width = 9,
    UnevenGroups = 10,
    Place = 11,
    PathLength = 12,
    HashedBytes = 13,
    NotARecord = 14,
    LevelCount = 15,
    WidthOfA = 16,
    DepthOfA = 17,
    RootOfA = 18,
    ValueOfA = 19,
    ValueOfB = 21,
    WidthOfC = 22,
    DepthOfC = 23,
    RootOfC = 24,
    ValueOfC = 25,
    Fold = 26,
    GroupCount = 27,
    TailWidth = 28,
    TailDepth = 29,
    TailRoot = 30,
    Claim = 31,
    NotAccepted = 32,
    SameRecords = 33,
    Coordinates = 36,
}

impl Refusal {
    // The number of the question.
    pub fn number(self) -> u32
        ensures { result ≡ number_of self }
    {
        self as u32
    }
}
