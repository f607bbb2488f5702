// Whole assignments: the initial one, and the tests of a hand step on what it is lent.
ghost use Rattle.std.specs.Prelude.{◌≡◌, ◌≤◌, ◌^◌, length, pos, nat_abs, ◌-ℤ◌, ◌≤ℤ◌};
ghost use Rattle.derivation.specs.Step.{in_range, below_floor, sum_z, fits};
ghost use Rattle.derivation.specs.Calls.{initial_reply, initial_times};
ghost use Rattle.derivation.specs.Replies.{outcome_reply};

use derivation::{Fault, Refusal, Tally};
use slices::copy;
use table::check_latest;

// The initial assignment (fresh board): each job at its latest time.
#[tactic(auto, using(crate::proofs::Laws::initial_count))]
pub fn initial(n: usize, latest: &[i32], times: &mut [i32]) -> Result<(), Refusal>
    ensures result_value { outcome_reply result ≡ initial_reply n latest.now times.old }
    ensures times_after { times.new ≡ initial_times n latest.now times.old }
{
    if n < 1 || 256 < n {
        return Err(Fault::JobCount.into());
    }
    check_latest(n, latest)?;
    if times.len() != n {
        return Err(Fault::Length.into());
    }
    copy(latest, times);
    Ok(())
}

// Each time is from `low` to the job's latest time (legal board). This and the next look at every time, and never end early, so that several
// are tested at once.
pub fn in_range(latest: &[i32], times: &[i32], low: i32) -> bool
    ensures { result ≡ in_range low latest.now times.now }
{
    let mut legal = true;
    for (l, t) in latest.iter().zip(times) {
        legal &= (low <= *t) & (*t <= *l);
    }
    legal
}

// Some time is below the floor (the board shows none).
pub fn below_floor(times: &[i32], floor: i32) -> bool
    ensures { result ≡ below_floor floor times.now }
{
    let mut below = false;
    for t in times {
        below |= *t < floor;
    }
    below
}

fn sum(times: &[i32]) -> i64
    requires { length times.now ≤ 256 }
    ensures value { result ≡ sum_z times.now }
    ensures bound { nat_abs result ≤ 2 ^ 40 }
{
    let mut minutes = 0;
    for t in times {
        minutes += i64::from(*t);
    }
    minutes
}

// The minutes that the times lie below the latest ones, in all.
fn minutes_lowered(latest: &[i32], times: &[i32]) -> u64
    requires few { (length latest.now ≤ 256) × (length times.now ≤ 256) }
    requires lowered { sum_z times.now ≤ℤ sum_z latest.now }
    ensures { pos result ≡ sum_z latest.now -ℤ sum_z times.now }
{
    (sum(latest) - sum(times)) as u64
}

// The minutes are the sum of the latest times minus that of the times, and the steps are no more than the minutes.
pub fn tally_fits(latest: &[i32], times: &[i32], tally: Tally) -> bool
    requires few { (length latest.now ≤ 256) × (length times.now ≤ 256) }
    requires lowered { sum_z times.now ≤ℤ sum_z latest.now }
    ensures { result ≡ fits latest.now tally times.now }
{
    tally.minutes == minutes_lowered(latest, times) && tally.steps <= tally.minutes
}
