// What is read as a clause.
ghost use Rattle.std.specs.Prelude.{◌≡◌, List, ℕ, ◌<◌, ◌≤◌, ◌-◌, length, get_or, take, drop};
ghost use Rattle.maxatom.specs.Rule.{time_at};
ghost use Rattle.maxatom.specs.declared.Arm.{Arm};
ghost use Rattle.maxatom.specs.Clauses.{Clause as Meaning, arms_of, left_of, clause_of};
ghost use Rattle.maxatom.specs.Inner.{arm_at, InJobs};
ghost use Rattle.clauses.specs.Passes.{put_arm};

use crate::minutes::plus;
use maxatom::{Arm, Rule};

// What can be read as a clause.
pub trait AsClause: Copy {
    ghost clause: { Self → Meaning };

    fn target(&self) -> u16
        ensures { result ≡ (clause self.now).target };

    // The number of its arms.
    fn arm_count(&self) -> usize
        ensures { result ≡ length (arms_of (clause self.now)) };

    fn arm(&self, i: usize) -> Arm
        requires { i < length (arms_of (clause self.now)) }
        ensures { result ≡ arm_at (clause self.now) i };

    // The largest of its arms.
    fn left_side(&self, times: &[i32]) -> i64
        requires { InJobs (length times.now) (clause self.now) }
        ensures { result ≡ left_of (time_at times.now) (clause self.now) };

    // The clause with arm j in the place of arm i.
    fn with_arm(&self, i: usize, j: usize) -> Self
        requires { (i < length (arms_of (clause self.now))) × (j < length (arms_of (clause self.now))) }
        ensures { clause result ≡ put_arm (clause self.now) i (arm_at (clause self.now) j) };
}

// A rule has two arms with one offset.
impl AsClause for Rule {
    ghost clause = { clause_of };

    fn target(&self) -> u16 {
        self.z
    }

    fn arm_count(&self) -> usize {
        2
    }

    fn arm(&self, i: usize) -> Arm {
        Arm {
            job: if i == 0 { self.x } else { self.y },
            offset: self.k,
        }
    }

    fn left_side(&self, times: &[i32]) -> i64 {
        plus(times[self.x as usize].max(times[self.y as usize]), self.k)
    }

    fn with_arm(&self, i: usize, j: usize) -> Rule {
        let job = if j == 0 { self.x } else { self.y };
        if i == 0 {
            Rule { x: job, ..*self }
        } else {
            Rule { y: job, ..*self }
        }
    }
}
