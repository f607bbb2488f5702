// A clause of 1 to 8 arms.
ghost use Rattle.std.specs.Prelude.{◌≡◌, ℕ, ◌<◌, ◌≤◌};

use crate::clause::AsClause;
use crate::minutes::plus;
use maxatom::Arm;

// A clause of 1 to 8 arms: the first, and `count` others. The places of `others` past them hold no arms of it.
#[derive(Clone, Copy)]
pub struct Clause {
    target: u16,
    first: Arm,
    count: usize,
    others: [Arm; 7],
    ghost few: { count ≤ 7 },
}

impl Clause {
    ghost use Rattle.std.specs.Prelude.{◌≡◌};
    ghost use Rattle.std.specs.Option.{option_map};
    ghost use Rattle.clauses.specs.Several.{meaning, with_arms};

    // The clause of a target and its arms. None where there are no arms, or more than 8.
    pub fn new(target: u16, arms: &[Arm]) -> Option<Clause>
        ensures { option_map meaning result ≡ with_arms target arms.now }
    {
        if arms.len() == 0 {
            return None;
        }
        if arms.len() > 8 {
            return None;
        }
        let first = arms[0];
        let count = arms.len() - 1;
        let mut others = [first; 7];
        others[..count].copy_from_slice(&arms[1..]);
        Some(Clause {
            target,
            first,
            count,
            others,
        })
    }
}

impl AsClause for Clause {
    ghost use Rattle.clauses.specs.Several.{meaning};

    ghost clause = { meaning };

    fn target(&self) -> u16 {
        self.target
    }

    fn arm_count(&self) -> usize {
        self.count + 1
    }

    fn arm(&self, i: usize) -> Arm {
        if i == 0 {
            self.first
        } else {
            self.others[i - 1]
        }
    }

    fn left_side(&self, times: &[i32]) -> i64 {
        let mut left = plus(times[self.first.job as usize], self.first.offset);
        for i in 0..self.count {
            let arm = self.others[i];
            left = left.max(plus(times[arm.job as usize], arm.offset));
        }
        left
    }

    fn with_arm(&self, i: usize, j: usize) -> Clause {
        let mut c = *self;
        if i == 0 {
            c.first = self.arm(j);
            return c;
        }
        c.others[i - 1] = self.arm(j);
        c
    }
}
