// What the calls answer, worked out apart from the library. A job that the book has not stands at 0.
ghost use Rattle.std.specs.Prelude.{◌*◌, ◌≤◌, ◌^◌};

use planner::{Fault, Rule, Slip, Solved, Tally};

pub fn time_of(times: [i32; 3], job: u16) -> i32 {
    match job {
        0 => times[0],
        1 => times[1],
        _ => times[2],
    }
}

fn set_time(times: &mut [i32; 3], job: u16, time: i32) {
    match job {
        0 => times[0] = time,
        1 => times[1] = time,
        _ => times[2] = time,
    }
}

// The time that the rule leaves to its third job.
fn left_side(r: Rule, times: [i32; 3]) -> i32 {
    time_of(times, r.x)
        .max(time_of(times, r.y))
        .saturating_add(r.k)
}

// Whether the times keep the rule.
fn is_satisfied(r: Rule, times: [i32; 3]) -> bool {
    time_of(times, r.z) <= left_side(r, times)
}

pub fn all_satisfied(rules: &[Rule], times: [i32; 3]) -> bool {
    rules.iter().all(|r| is_satisfied(*r, times))
}

// The number of the first rule that puts a job before itself, if any.
pub fn first_impossible(rules: &[Rule]) -> Option<usize> {
    rules
        .iter()
        .position(|r| r.x == r.y && r.y == r.z && r.k < 0)
}

// By how many minutes the times stand before zero, in all.
pub fn depth(times: [i32; 3]) -> u64
    ensures { result ≤ 3 * 2 ^ 31 }
{
    let [first, second, third] = times;
    u64::from(first.unsigned_abs())
        + u64::from(second.unsigned_abs())
        + u64::from(third.unsigned_abs())
}

// The smallest latest time minus the offsets without sign.
pub fn floor_of(rules: &[Rule], latest: [i32; 3]) -> i32 {
    let smallest = latest[0].min(latest[1]).min(latest[2]);
    rules.iter().fold(smallest, |floor, r| {
        floor.saturating_sub(r.k.max(0i32.saturating_sub(r.k)))
    })
}

pub fn shows_none(rules: &[Rule], latest: [i32; 3], times: [i32; 3]) -> bool {
    let floor = floor_of(rules, latest);
    times.iter().any(|t| *t < floor)
}

// What a step on a rule takes off.
fn slip_of(r: Rule, times: [i32; 3]) -> Slip {
    Slip {
        job: r.z,
        before: time_of(times, r.z),
        after: left_side(r, times),
    }
}

// A board with its tally.
#[derive(Clone, Copy, PartialEq, Eq)]
pub struct State {
    pub times: [i32; 3],
    pub tally: Tally,
}

// A call on a board: a hand step on a rule by its number, or a step taken back by a slip.
#[derive(Clone, Copy)]
pub enum Call {
    Step(usize),
    Back(Slip),
}

// What a call says, with the slip where a hand step is done, and the state after it.
pub type Called = (Result<Option<Slip>, Fault>, State);

// The bench run: passes over the rules from rule 0 upward, to a pass without a step, or to the first job that falls. A book takes at most
// 11 steps, since of three jobs two may stand 4 minutes above the floor and one 2.
pub fn run(rules: &[Rule], latest: [i32; 3]) -> (Solved, [i32; 3]) {
    let mut times = latest;
    let mut steps = 0u64;
    for _ in 0..12 {
        let begun = steps;
        for r in rules {
            if !is_satisfied(*r, times) {
                let slip = slip_of(*r, times);
                set_time(&mut times, slip.job, slip.after);
                steps = steps.saturating_add(1);
                if shows_none(rules, latest, times) {
                    return (Solved::None(steps, slip), times);
                }
            }
        }
        if steps == begun {
            break;
        }
    }
    (Solved::Plan(steps), times)
}

// A hand step, on a board that is legal and that its tally fits.
fn step(rules: &[Rule], latest: [i32; 3], state: State, number: usize) -> Called {
    let State { times, tally } = state;
    let r = match rules.get(number) {
        None => return (Err(Fault::NoSuchRule), state),
        Some(r) => *r,
    };
    if shows_none(rules, latest, times) {
        return (Err(Fault::ShowsNone), state);
    }
    if is_satisfied(r, times) {
        return (Err(Fault::Satisfied), state);
    }
    let slip = slip_of(r, times);
    let off = u64::from(slip.before.abs_diff(slip.after));
    let mut after = State {
        times,
        tally: Tally {
            steps: tally.steps.saturating_add(1),
            minutes: tally.minutes.saturating_add(off),
        },
    };
    set_time(&mut after.times, slip.job, slip.after);
    (Ok(Some(slip)), after)
}

// A step taken back, on a board of n jobs that is legal and that its tally fits.
fn step_back(n: usize, latest: [i32; 3], state: State, slip: Slip) -> Called {
    let Slip { job, before, after } = slip;
    let State { times, tally } = state;
    if n <= usize::from(job) {
        return (Err(Fault::NoSuchJob), state);
    }
    if time_of(times, job) != after || before <= after || time_of(latest, job) < before {
        return (Err(Fault::SlipDiffers), state);
    }
    let off = u64::from(before.abs_diff(after));
    let minutes = tally.minutes.saturating_sub(off);
    // One step less would be no more than the minutes.
    if tally.steps == 0 || minutes.saturating_add(1) < tally.steps {
        return (Err(Fault::TallyShort), state);
    }
    let mut back = State {
        times,
        tally: Tally {
            steps: tally.steps.saturating_sub(1),
            minutes,
        },
    };
    set_time(&mut back.times, job, before);
    (Ok(None), back)
}

pub fn called(n: usize, rules: &[Rule], latest: [i32; 3], state: State, call: Call) -> Called {
    match call {
        Call::Step(number) => step(rules, latest, state, number),
        Call::Back(slip) => step_back(n, latest, state, slip),
    }
}
