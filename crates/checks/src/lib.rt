// What the checks of a call say: a pass, or a refusal by the first check that applies.
#![tactic(auto)]

ghost use Rattle.std.specs.Prelude.{◌≡◌};
ghost use Rattle.checks.specs.Checks.{number_of, or_else, passed};

use std::error::Error;
use std::fmt;

// What a check finds, by the check's number. 2026-12: 'check 7 no longer occurs and its number stays empty'.
#[derive(Clone, Copy, Debug, PartialEq, Eq)]
pub enum Fault {
    TooFewWords = 1,
    MisplacedWord = 2,
    WrongLength = 3,
    WrongPartCount = 4,
    PartOutside = 5,
    SelfLoop = 6,
    CrowdedPart = 8,
    UnreachedPart = 9,
    SeparatingPart = 10,
    OutputTooShort = 11,
    DiscountTooHigh = 12,
    WrongSpacing = 13,
    NumberTooLarge = 14,
    StaleProposal = 15,
    RowFull = 16,
    MisformedSort = 17,
    MisnumberedSort = 18,
    OutOfLayout = 19,
    BrokenRule = 20,
    TooManyMarks = 21,
    SheetRefused = 22,
    NoSuchLine = 23,
}

impl Fault {
    // The check's number.
    pub fn number(self) -> u8
        ensures { result ≡ number_of self }
    {
        self as u8
    }

    // The refusal at the place where this is found, if it is.
    #[tactic(auto, unfolding(crate::specs::Checks::or_else))]
    pub fn refuse(self, found: Option<usize>) -> Result<(), Refusal>
        ensures { result ≡ or_else self found passed }
    {
        match found {
            Some(place) => Err(Refusal { fault: self, place }),
            None => Ok(()),
        }
    }
}

// A refusal 'returns its number and one place'.
#[derive(Clone, Copy, Debug, PartialEq, Eq)]
pub struct Refusal {
    pub fault: Fault,
    pub place: usize,
}

// '`refused`, the number and the place'.
impl fmt::Display for Refusal {
    ghost use Rattle.std.specs.Prelude.{Some};
    ghost use Rattle.checks.specs.Checks.{refusal_text};

    ghost output = { λ r. Some (refusal_text r) };

    fn fmt<W: fmt::Write>(&self, f: &mut fmt::Formatter<W>) -> fmt::Result {
        write!(f, "refused {} {}", self.fault.number(), self.place)
    }
}

impl Error for Refusal {}
