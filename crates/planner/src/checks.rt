// The checks of a table and its latest times, and its K; and those of a board and a tally lent with it, and its floor.
ghost use Rattle.std.specs.Prelude.{◌≡◌};
ghost use Rattle.maxatom.specs.Book.{book};
ghost use Rattle.derivation.specs.Replies.{state_of};
ghost use Rattle.planner.specs.Checks.{sum_reply, checks_reply, floor_reply, state_reply};

use derivation::{Fault, Refusal, Tally};
use maxatom::Rule;
use solver::{in_range, tally_fits};
use table::{check_latest, check_rule, floor, smallest};

// The checks of a table with its times: the job count, the rule count, each rule in turn, the latest times, the number of times. Answers K.
pub fn check(n: usize, rules: &[Rule], latest: &[i32], times: &[i32]) -> Result<u32, Refusal>
    ensures { sum_reply result ≡ checks_reply (book n latest.now rules.now) times.now }
{
    if n < 1 || 256 < n {
        return Err(Fault::JobCount.into());
    }
    if 1024 < rules.len() {
        return Err(Fault::RuleCount.into());
    }
    let mut k = 0;
    for (i, r) in rules.iter().enumerate() {
        check_rule(n, *r).map_err(|fault| Refusal { fault, place: i })?;
        k += r.k.unsigned_abs();
    }
    check_latest(n, latest)?;
    if times.len() != n {
        return Err(Fault::Length.into());
    }
    Ok(k)
}

// The checks of a board and a tally that are lent with a table: those of the table, then the board, then the tally. Answers the floor.
pub fn check_state(
    n: usize,
    rules: &[Rule],
    latest: &[i32],
    times: &[i32],
    tally: Tally,
) -> Result<i32, Refusal>
    ensures { floor_reply result ≡ state_reply (book n latest.now rules.now) (state_of times.now tally) }
{
    let k = check(n, rules, latest, times)?;
    let least = smallest(latest);
    let lowest = floor(least, 2 * k);
    let floor = floor(least, k);
    if !in_range(latest, times, lowest) {
        return Err(Fault::IllegalBoard.into());
    }
    if !tally_fits(latest, times, tally) {
        return Err(Fault::TallyDiffers.into());
    }
    Ok(floor)
}
