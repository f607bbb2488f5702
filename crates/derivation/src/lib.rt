// What the calls answer. What they mean is in specs/, what is true of them in proofs/; the code that meets it is in the crates above.

#![tactic(auto)]

ghost use Rattle.std.specs.Prelude.{◌≡◌};
ghost use Rattle.derivation.specs.Faults.{number_of, refusal_for};

use maxatom::Slip;

// The tally: steps taken, and minutes lowered in all.
#[repr(C)]
#[derive(Clone, Copy, PartialEq, Eq)]
pub struct Tally {
    pub steps: u64,
    pub minutes: u64,
}

// Why a call is refused: a condition of the lists of refusals, each of which has a number.
#[derive(Clone, Copy, PartialEq, Eq)]
pub enum Fault {
    // The file ends inside a record or before its first one (1).
    FileEnds,
    // A record's mark is not known (2).
    UnknownMark,
    // The first record is no book's, a later one is, or a latest time stands behind a rule (3).
    RecordPlace,
    // The job count is outside 1 to 256 (4).
    JobCount,
    // There is a rule past the 1,024th (5).
    RuleCount,
    // A rule or a latest time names a job of number n or more (6).
    JobNumber,
    // An offset, or hours, outside the bounds (7).
    Offset,
    // A latest time is outside −20,160 to 0 (8).
    LatestTime,
    // A second latest time for one job (9).
    SecondLatest,
    // A rule is in the impossible class (10).
    ImpossibleRule,
    // What is lent has the wrong length (21).
    Length,
    // The board is not legal (22).
    IllegalBoard,
    // The tally does not fit the board (23).
    TallyDiffers,
    // There is no rule of that number (24).
    NoSuchRule,
    // The board shows none (25).
    ShowsNone,
    // The rule is kept (26).
    Satisfied,
    // The slip's job is not in the book (27).
    NoSuchJob,
    // The job is not at the slip's time after, or the time before is not above that or passes the job's latest (28).
    SlipDiffers,
    // The tally has no step, or would no longer fit (29).
    TallyShort,
}

impl From<Fault> for u8 {
    ghost from_gives = { λ fault n. n ≡ number_of fault };

    fn from(fault: Fault) -> u8 {
        match fault {
            Fault::FileEnds => 1,
            Fault::UnknownMark => 2,
            Fault::RecordPlace => 3,
            Fault::JobCount => 4,
            Fault::RuleCount => 5,
            Fault::JobNumber => 6,
            Fault::Offset => 7,
            Fault::LatestTime => 8,
            Fault::SecondLatest => 9,
            Fault::ImpossibleRule => 10,
            Fault::Length => 21,
            Fault::IllegalBoard => 22,
            Fault::TallyDiffers => 23,
            Fault::NoSuchRule => 24,
            Fault::ShowsNone => 25,
            Fault::Satisfied => 26,
            Fault::NoSuchJob => 27,
            Fault::SlipDiffers => 28,
            Fault::TallyShort => 29,
        }
    }
}

// A refusal: why, and its place.
#[derive(Clone, Copy, PartialEq, Eq)]
pub struct Refusal {
    pub fault: Fault,
    pub place: usize,
}

// A refusal whose place is 0.
impl From<Fault> for Refusal {
    ghost from_gives = { λ fault r. r ≡ refusal_for fault };

    fn from(fault: Fault) -> Refusal {
        Refusal { fault, place: 0 }
    }
}

// The job count and the rule count of a book.
#[derive(Clone, Copy, PartialEq, Eq)]
pub struct Counts {
    pub jobs: usize,
    pub rules: usize,
}

// The bench run of a book that is not refused: a plan with the steps of the run, or none with the steps and the slip of the last. It is no
// `Result`, since none is an answer as a plan is, and no failure.
#[derive(Clone, Copy, PartialEq, Eq)]
pub enum Solved {
    Plan(u64),
    None(u64, Slip),
}
