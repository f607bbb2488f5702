// How a book's run ends, by straight passes and by the library's run.
use crate::book::{Book, Line};
use crate::runnable::is_runnable;
use clauses::Clause;
use maxatom::Arm;
use run::run;

// The steps; where a job fell below the floor, that job with its times before and after the step; and the times left.
#[derive(Clone, Copy, PartialEq, Eq)]
pub struct Outcome {
    pub steps: u64,
    pub fallen: Option<(u16, i64, i64)>,
    pub times: [i64; 48],
}

fn widened(times: [i32; 48]) -> [i64; 48] {
    times.map(|t| i64::from(t))
}

// The largest of a clause's arms.
fn left_side(line: &Line, times: &[i64]) -> i64 {
    let mut left = i64::MIN;
    for arm in line.arms.iter().take(line.count) {
        let time = times.get(arm.job as usize).copied().unwrap_or(0);
        left = left.max(time.saturating_add(i64::from(arm.offset)));
    }
    left
}

// By passes one after the other, until one makes no step, or a step takes its job below the floor. None where two million passes are not
// enough.
pub fn by_straight_passes(book: &Book) -> Option<Outcome> {
    let mut times = widened(book.start);
    let mut steps: u64 = 0;
    for _ in 0..2000000 {
        let before = steps;
        for line in book.lines.iter().take(book.count) {
            let left = left_side(line, &times);
            let time = times.get_mut(line.target as usize)?;
            if left < *time {
                let slip = (line.target, *time, left);
                *time = left;
                steps = steps.saturating_add(1);
                if left < i64::from(book.floor) {
                    return Some(Outcome {
                        steps,
                        fallen: Some(slip),
                        times,
                    });
                }
            }
        }
        if steps == before {
            return Some(Outcome {
                steps,
                fallen: None,
                times,
            });
        }
    }
    None
}

// By the library's run. None where the book is not one that it can start from.
pub fn by_run(book: &Book) -> Option<Outcome> {
    let mut clauses = [Clause::new(0, &[Arm { job: 0, offset: 0 }])?; 64];
    for (c, line) in clauses.iter_mut().zip(book.lines.iter().take(book.count)) {
        *c = Clause::new(line.target, line.arms.get(..line.count)?)?;
    }
    let clauses = clauses.get(..book.count)?;
    let mut times = book.start;
    let lent = times.get_mut(..book.jobs)?;
    if !is_runnable(clauses, book.floor, lent) {
        return None;
    }
    let (steps, fallen) = match run(clauses, book.floor, lent) {
        Ok(steps) => (steps, None),
        Err(fall) => {
            let slip = fall.slip;
            let times = (i64::from(slip.before), i64::from(slip.after));
            (fall.steps, Some((slip.job, times.0, times.1)))
        }
    };
    Some(Outcome {
        steps,
        fallen,
        times: widened(times),
    })
}
