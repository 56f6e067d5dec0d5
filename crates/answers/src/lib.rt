// Why a call is refused (document 01, "When the clerk turns a call away"). What a call answers, in the papers' numbers,
// is in specs/.

#![tactic(auto)]

ghost use Rattle.std.specs.Prelude.{◌≡◌};
ghost use Rattle.answers.specs.Results.{number};

// Why a call is refused, each case under its number.
#[derive(Clone, Copy, Debug, PartialEq, Eq)]
pub enum Refusal {
    FlagsOutOfRange = 1,
    UnknownOperator = 2,
    InvalidFirst = 3,
    InvalidSecond = 4,
    InvalidMask = 5,
    InvalidOutput = 6,
    IndexOutOfBounds = 7,
    InvalidShape = 8,
    WorkspaceTooShort = 9,
    TooManyEntries = 10,
    InsufficientSpace = 11,
    InvalidStore = 12,
    EmptySlot = 13,
    InvalidFormula = 14,
    InvalidFile = 15,
}

impl Refusal {
    // The number of document 01's table.
    pub fn number(self) -> u32
        ensures { result ≡ number self }
    {
        self as u32
    }
}
