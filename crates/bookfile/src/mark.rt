// The marks of a book file's records, and the forms of the file.
ghost use Rattle.std.specs.Prelude.{◌≡◌};
ghost use Rattle.bookfile.specs.Marks.{mark_of, mark_in, is_rule};

use derivation::Fault;

// What a record is: the book's first, a job's latest time, a rule, or a rule whose offset is in hours.
#[derive(Clone, Copy, PartialEq, Eq)]
pub enum Mark {
    Book,
    Latest,
    Rule,
    Hours,
}

// The form of a file: one that is sent, which the reader takes, or a stored one, which may have offsets in hours and is for the converter.
#[derive(Clone, Copy, PartialEq, Eq)]
pub enum Form {
    Sent,
    Stored,
}

// Each mark's two letters, the first of which is the low byte. They are put together by hand, since a constant's value calls no function.
const BOOK: u16 = b'B' as u16 + 256 * b'K' as u16;

const LATEST: u16 = b'C' as u16 + 256 * b'E' as u16;

const RULE: u16 = b'R' as u16 + 256 * b'U' as u16;

const HOURS: u16 = b'H' as u16 + 256 * b'R' as u16;

// The mark that is a record's first word.
impl TryFrom<u16> for Mark {
    type Error = Fault;

    ghost try_from_gives = { λ word said. said ≡ mark_of word };

    #[tactic(auto, unfolding(crate::specs::Marks::mark_of))]
    fn try_from(word: u16) -> Result<Mark, Fault> {
        match word {
            BOOK => Ok(Mark::Book),
            LATEST => Ok(Mark::Latest),
            RULE => Ok(Mark::Rule),
            HOURS => Ok(Mark::Hours),
            _ => Err(Fault::UnknownMark),
        }
    }
}

impl Form {
    // The mark that is a record's first word in a file of this form.
    #[tactic(auto, using(crate::proofs::Marks::in_form))]
    pub fn mark(self, word: u16) -> Result<Mark, Fault>
        ensures { result ≡ mark_in self word }
    {
        if self == Form::Sent && word == HOURS {
            return Err(Fault::UnknownMark);
        }
        Mark::try_from(word)
    }
}

impl Mark {
    pub fn is_rule(self) -> bool
        ensures { result ≡ is_rule self }
    {
        match self {
            Mark::Book | Mark::Latest => false,
            Mark::Rule | Mark::Hours => true,
        }
    }
}
