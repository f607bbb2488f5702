// A pass over clauses.
ghost use Rattle.std.specs.Prelude.{◌≡◌, ℕ, ◌+◌, ◌<◌, ◌≤◌, ◌^◌, length, map, IfOk};
ghost use Rattle.std.specs.Option.{ForSome};
ghost use Rattle.maxatom.specs.Clauses.{Clause};
ghost use Rattle.clauses.specs.Passes.{InTimes, PassEnds, Noted};

use crate::clause::AsClause;

// What a pass, or a stretch of one, made: the steps so far; the blocks that are dirty; the number of the last clause stepped on; and a
// sum of the minutes taken off, weighed by the clauses' numbers.
#[derive(Clone, Copy)]
pub struct Pass {
    pub steps: u64,
    pub dirty: u64,
    pub last: usize,
    pub minutes: u64,
}

// A step would take a job below the floor: the place of its clause among those passed over, and the steps up to there.
#[derive(Clone, Copy)]
pub struct Stop {
    pub at: usize,
    pub steps: u64,
}

// A pass that has made nothing, after `steps` steps before it, with the blocks that are dirty.
pub fn new_pass(steps: u64, dirty: u64) -> Pass
    ensures { (result.steps ≡ steps) × (result.dirty ≡ dirty) }
{
    Pass {
        steps,
        dirty,
        last: 0,
        minutes: 0,
    }
}

// Minutes weighed by a clause's number.
fn weighed(minutes: u64, number: usize) -> u64 {
    (minutes % 4294967296) * ((number as u64) % 1024 + 1)
}

// A pass over clauses, the first of which has the number `from`: a step on each violated one, and an end before the first whose step would
// fall below the floor. Where the blocks of each job's readers are lent, a step makes those of its job dirty, and is noted.
pub fn pass_over<C: AsClause>(
    clauses: &[C],
    floor: i32,
    from: usize,
    readers: Option<&[u64]>,
    start: Pass,
    times: &mut [i32],
) -> Result<Pass, Stop>
    requires in_times { InTimes (map C.clause clauses.now) times.old }
    requires numbers { from + length clauses.now < 2 ^ 64 }
    requires steps { start.steps + length clauses.now < 2 ^ 64 }
    requires readers { ForSome readers (λ r. length times.old ≤ length r.now) }
    ensures ends { PassEnds floor (map C.clause clauses.now) times.old start.steps times.new result }
    ensures noted { ForSome readers.entry (λ r. IfOk result (λ p. Noted r.now times.old times.new start.dirty p.dirty)) }
{
    let mut pass = start;
    for (i, c) in clauses.iter().enumerate() {
        let z = c.target() as usize;
        let left = c.left_side(times);
        let time = i64::from(times[z]);
        if left < time {
            if left < i64::from(floor) {
                return Err(Stop {
                    at: i,
                    steps: pass.steps,
                });
            }
            times[z] = left as i32;
            pass.steps += 1;
            if let Some(blocks) = readers {
                pass.dirty |= blocks[z];
                pass.last = from + i;
                pass.minutes ^= weighed((time - left) as u64, from + i);
            }
        }
    }
    Ok(pass)
}
