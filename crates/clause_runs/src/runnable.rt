// Whether a run can start from a book.
ghost use Rattle.std.specs.Prelude.{◌≡◌, true, ◌≤◌, ◌^◌, length, map};
ghost use Rattle.maxatom.specs.Book.{Each};
ghost use Rattle.run.specs.Running.{Runnable};
ghost use Rattle.clause_runs.specs.Sound.{SoundArm, SoundClause, Between};

use clauses::AsClause;
use maxatom::Arm;

fn is_arm_sound(arm: Arm, jobs: usize) -> bool
    ensures { result ≡ true → SoundArm jobs arm }
{
    (arm.job as usize) < jobs && arm.offset.unsigned_abs() <= 1073741824
}

fn is_clause_sound<C: AsClause>(c: &C, jobs: usize) -> bool
    ensures { result ≡ true → SoundClause jobs (C.clause c.now) }
{
    for i in 0..c.arm_count() {
        if !is_arm_sound(c.arm(i), jobs) {
            return false;
        }
    }
    (c.target() as usize) < jobs
}

fn are_clauses_sound<C: AsClause>(clauses: &[C], jobs: usize) -> bool
    ensures { result ≡ true → Each (SoundClause jobs) (map C.clause clauses.now) }
{
    for c in clauses {
        if !is_clause_sound(c, jobs) {
            return false;
        }
    }
    true
}

fn are_times_between(times: &[i32], floor: i32) -> bool
    ensures { result ≡ true → Each (Between floor) times.now }
{
    for time in times {
        if *time < floor {
            return false;
        }
        if 0 < *time {
            return false;
        }
    }
    true
}

// Whether a run can start from the times, over the clauses.
pub fn is_runnable<C: AsClause>(clauses: &[C], floor: i32, times: &[i32]) -> bool
    ensures { result ≡ true → Runnable floor (map C.clause clauses.now) times.now }
{
    if 1024 < clauses.len() {
        return false;
    }
    if 256 < times.len() {
        return false;
    }
    if floor < -1073741824 {
        return false;
    }
    if 0 < floor {
        return false;
    }
    if !are_times_between(times, floor) {
        return false;
    }
    are_clauses_sound(clauses, times.len())
}
