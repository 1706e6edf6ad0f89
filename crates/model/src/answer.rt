// What a call answers.
ghost use Rattle.std.specs.Prelude.{◌≡◌};
ghost use Rattle.model.specs.Answers.{of_text, refusal_number, second_number};

use formula::text;

// Document 01's table of refusals, and what document 02 adds to it; beside each stands its number and word. Refusals 16
// and 17 are a file's alone. A file's and a text's are enums of their own, so that a type says which can come.
#[derive(Clone, Copy, PartialEq, Eq)]
pub enum Refusal {
    // 1, stranger
    UnknownUser,
    // 2, no run
    NoThread,
    // 3, no segment
    NoSegment,
    // 4, no key
    NoKey,
    // 5, no lock
    NoLock,
    // 6, not yours
    NotOwner,
    // 7, unfit
    Unfit,
    // 8, already in
    AlreadyPresent,
    // 9, not there
    NotPresent,
    // 10, full
    Full,
    // 11, misspelt
    Malformed,
    // 12, too wide
    TooWide,
    // 13, void
    Unsatisfiable,
    // 14, barred: the lowest deny lock that opens
    Denied(u16),
    // 15, no way in
    NotGranted,
    // 18, broken file: the call is not well formed
    Corrupt,
    // 19, too few rows: a lock list's alone
    TooFewRows,
}

impl Refusal {
    // Document 01's number of it. Methods and no `From`: a refusal has two numbers.
    pub fn number(self) -> u16
        ensures { result ≡ refusal_number self }
    {
        match self {
            Refusal::UnknownUser => 1,
            Refusal::NoThread => 2,
            Refusal::NoSegment => 3,
            Refusal::NoKey => 4,
            Refusal::NoLock => 5,
            Refusal::NotOwner => 6,
            Refusal::Unfit => 7,
            Refusal::AlreadyPresent => 8,
            Refusal::NotPresent => 9,
            Refusal::Full => 10,
            Refusal::Malformed => 11,
            Refusal::TooWide => 12,
            Refusal::Unsatisfiable => 13,
            Refusal::Denied(_) => 14,
            Refusal::NotGranted => 15,
            Refusal::Corrupt => 18,
            Refusal::TooFewRows => 19,
        }
    }

    // Its second number.
    pub fn second(self) -> u16
        ensures { result ≡ second_number self }
    {
        match self {
            Refusal::Denied(lock) => lock,
            _ => 0,
        }
    }
}

// A lock text's refusal.
impl From<text::Refusal> for Refusal {
    ghost from_gives = { λ refused refusal. refusal ≡ of_text refused };

    fn from(refused: text::Refusal) -> Refusal {
        match refused {
            text::Refusal::Malformed => Refusal::Malformed,
            text::Refusal::TooWide => Refusal::TooWide,
            text::Refusal::Unsatisfiable => Refusal::Unsatisfiable,
        }
    }
}

// The number that the table of the twelve calls gives each letter, of a lock list the number of rows, or a refusal.
pub type Answer = Result<u16, Refusal>;
