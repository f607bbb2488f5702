// What the calls answer, in the words of the output.
use planner::{Class, Refusal, Rule, Slip, Solved, Tally};
use std::fmt;
use std::fmt::Display;

// The reply of a call: its answer, or the refusal.
#[derive(Drop)]
pub struct Said<T>(pub Result<T, Refusal>);

impl<T: Display> Display for Said<T> {
    fn fmt<W: fmt::Write>(&self, f: &mut fmt::Formatter<W>) -> fmt::Result {
        match &self.0 {
            Ok(answer) => write!(f, "{answer}"),
            Err(refusal) => {
                let number = u8::from(refusal.fault);
                let place = refusal.place;
                write!(f, "REFUSED {number} {place}")
            }
        }
    }
}

#[derive(Drop)]
pub struct Fresh;

impl Display for Fresh {
    fn fmt<W: fmt::Write>(&self, f: &mut fmt::Formatter<W>) -> fmt::Result {
        write!(f, "FRESH")
    }
}

// A slip: a job, its time before and its time after.
#[derive(Drop)]
pub struct Off(pub Slip);

impl Display for Off {
    fn fmt<W: fmt::Write>(&self, f: &mut fmt::Formatter<W>) -> fmt::Result {
        let Slip { job, before, after } = self.0;
        write!(f, "{job} {before} {after}")
    }
}

// A hand step, by its slip.
#[derive(Drop)]
pub struct Stepped(pub Slip);

impl Display for Stepped {
    fn fmt<W: fmt::Write>(&self, f: &mut fmt::Formatter<W>) -> fmt::Result {
        let off = Off(self.0);
        write!(f, "STEPPED {off}")
    }
}

// A step taken back.
#[derive(Drop)]
pub struct Back;

impl Display for Back {
    fn fmt<W: fmt::Write>(&self, f: &mut fmt::Formatter<W>) -> fmt::Result {
        write!(f, "BACK")
    }
}

// The first violated rule, if any.
#[derive(Drop)]
pub struct Kept(pub Option<usize>);

impl Display for Kept {
    fn fmt<W: fmt::Write>(&self, f: &mut fmt::Formatter<W>) -> fmt::Result {
        match self.0 {
            None => write!(f, "KEPT"),
            Some(i) => write!(f, "BROKEN {i}"),
        }
    }
}

#[derive(Drop)]
pub struct Tight(pub bool);

impl Display for Tight {
    fn fmt<W: fmt::Write>(&self, f: &mut fmt::Formatter<W>) -> fmt::Result {
        match self.0 {
            true => write!(f, "TIGHT"),
            false => write!(f, "SLACK"),
        }
    }
}

#[derive(Drop)]
pub struct Run(pub Solved);

impl Display for Run {
    fn fmt<W: fmt::Write>(&self, f: &mut fmt::Formatter<W>) -> fmt::Result {
        match self.0 {
            Solved::Plan(steps) => write!(f, "PLAN {steps}"),
            Solved::None(steps, slip) => {
                let off = Off(slip);
                write!(f, "NONE {steps} {off}")
            }
        }
    }
}

#[derive(Drop)]
pub struct Kind(pub Class);

impl Display for Kind {
    fn fmt<W: fmt::Write>(&self, f: &mut fmt::Formatter<W>) -> fmt::Result {
        match self.0 {
            Class::Tautology => write!(f, "IDLE"),
            Class::Contradiction => write!(f, "IMPOSSIBLE"),
            Class::Difference => write!(f, "ONE-ARMED"),
            Class::Disjunctive => write!(f, "TWO-ARMED"),
        }
    }
}

// Minutes of the jobs, behind a word that says which.
#[derive(Drop)]
pub struct Minutes<'a>(pub &'a str, pub &'a [i32]);

impl Display for Minutes<'_> {
    fn fmt<W: fmt::Write>(&self, f: &mut fmt::Formatter<W>) -> fmt::Result {
        write!(f, "{}", self.0)?;
        for minute in self.1 {
            write!(f, " {minute}")?;
        }
        Ok(())
    }
}

#[derive(Drop)]
pub struct Told(pub Tally);

impl Display for Told {
    fn fmt<W: fmt::Write>(&self, f: &mut fmt::Formatter<W>) -> fmt::Result {
        let Tally { steps, minutes } = self.0;
        write!(f, "TALLY {steps} {minutes}")
    }
}

// A job count and a rule count.
#[derive(Drop)]
pub struct Book(pub usize, pub usize);

impl Display for Book {
    fn fmt<W: fmt::Write>(&self, f: &mut fmt::Formatter<W>) -> fmt::Result {
        write!(f, "BOOK {} {}", self.0, self.1)
    }
}

#[derive(Drop)]
pub struct Numbers(pub Rule);

impl Display for Numbers {
    fn fmt<W: fmt::Write>(&self, f: &mut fmt::Formatter<W>) -> fmt::Result {
        let Rule { x, y, z, k } = self.0;
        write!(f, "{x} {y} {z} {k}")
    }
}

#[derive(Drop)]
pub struct Table<'a>(pub &'a [Rule]);

impl Display for Table<'_> {
    fn fmt<W: fmt::Write>(&self, f: &mut fmt::Formatter<W>) -> fmt::Result {
        write!(f, "TABLE")?;
        for rule in self.0 {
            let numbers = Numbers(*rule);
            write!(f, " {numbers}")?;
        }
        Ok(())
    }
}
