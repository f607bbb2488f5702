// The hand step.
ghost use Rattle.std.specs.Prelude.{◌≡◌};
ghost use Rattle.maxatom.specs.Rule.{minutes_off};
ghost use Rattle.maxatom.specs.Book.{book};
ghost use Rattle.derivation.specs.Step.{slip_of, step_on, step_call};
ghost use Rattle.derivation.specs.Replies.{slip_reply, state_of};
ghost use Rattle.planner.specs.Steps.{StepRoom};

use crate::checks::check_state;
use derivation::{Fault, Refusal, Tally};
use maxatom::{Rule, Slip};
use solver::{below_floor, is_satisfied, lower};

// The minutes that a slip takes off.
#[tactic(auto, unfolding(maxatom::specs::Rule::minutes_off))]
pub fn minutes_off(slip: Slip) -> u64
    ensures { result ≡ minutes_off slip.before slip.after }
{
    u64::from(slip.before.abs_diff(slip.after))
}

// Sets z's time to the rule's left side, brings the tally up to date, and tells what was taken off.
#[tactic(auto, unfolding(derivation::specs::Step::step_on))]
fn take_step(r: Rule, times: &mut [i32], tally: &mut Tally) -> Slip
    requires { StepRoom r times.old tally.old }
    ensures told { result ≡ slip_of r times.old }
    ensures state_after { state_of times.new tally.new ≡ step_on r (state_of times.old tally.old) }
{
    let slip = lower(r, times);
    tally.minutes += minutes_off(slip);
    tally.steps += 1;
    slip
}

// Hand step: takes a violated rule and sets its third job's time to the left side; the tally is brought up to date. Answers the slip, which
// tells what was taken off: the job, its time before and its time after.
pub fn step(
    n: usize,
    rules: &[Rule],
    latest: &[i32],
    times: &mut [i32],
    tally: &mut Tally,
    number: usize,
) -> Result<Slip, Refusal>
    ensures said { slip_reply result ≡ (step_call (book n latest.now rules.now) (state_of times.old tally.old) number).said }
    ensures times_after { times.new ≡ (step_call (book n latest.now rules.now) (state_of times.old tally.old) number).after.times }
    ensures tally_after { tally.new ≡ (step_call (book n latest.now rules.now) (state_of times.old tally.old) number).after.tally }
{
    let floor = check_state(n, rules, latest, times, *tally)?;
    let r = *rules.get(number).ok_or(Fault::NoSuchRule)?;
    if below_floor(times, floor) {
        return Err(Fault::ShowsNone.into());
    }
    if is_satisfied(r, times) {
        return Err(Fault::Satisfied.into());
    }
    Ok(take_step(r, times, tally))
}
