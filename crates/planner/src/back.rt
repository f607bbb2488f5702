// Taking a step back.
ghost use Rattle.std.specs.Prelude.{◌≡◌};
ghost use Rattle.maxatom.specs.Book.{book};
ghost use Rattle.derivation.specs.Back.{back_call};
ghost use Rattle.derivation.specs.Replies.{outcome_reply, state_of};

use crate::checks::check_state;
use crate::hand_step::minutes_off;
use derivation::{Fault, Refusal, Tally};
use maxatom::{Rule, Slip};

// Takes a hand step back: the slip's job stands at its time before again, and the tally loses a step and the slip's minutes. The slip may be
// any three numbers, and the board may show none.
pub fn step_back(
    n: usize,
    rules: &[Rule],
    latest: &[i32],
    times: &mut [i32],
    tally: &mut Tally,
    slip: Slip,
) -> Result<(), Refusal>
    ensures said { outcome_reply result ≡ (back_call (book n latest.now rules.now) (state_of times.old tally.old) slip).said }
    ensures times_after { times.new ≡ (back_call (book n latest.now rules.now) (state_of times.old tally.old) slip).after.times }
    ensures tally_after { tally.new ≡ (back_call (book n latest.now rules.now) (state_of times.old tally.old) slip).after.tally }
{
    check_state(n, rules, latest, times, *tally)?;
    let job = slip.job as usize;
    if n <= job {
        return Err(Fault::NoSuchJob.into());
    }
    let time = times[job];
    if time != slip.after || slip.before <= slip.after || latest[job] < slip.before {
        return Err(Fault::SlipDiffers.into());
    }
    // The minutes fit the board after as they fit this one, so that only the steps may be too many.
    let minutes = tally.minutes - minutes_off(slip);
    if tally.steps == 0 || minutes < tally.steps - 1 {
        return Err(Fault::TallyShort.into());
    }
    times[job] = slip.before;
    tally.steps -= 1;
    tally.minutes = minutes;
    Ok(())
}
