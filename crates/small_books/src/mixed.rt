// Lists of hand steps and steps back, mixed, each from a fresh board.
ghost use Rattle.std.specs.Prelude.{◌<◌, ◌≤◌};

use crate::books::job;
use crate::calling::{called, fresh};
use crate::reference::{Call, State, depth, floor_of, shows_none, time_of};
use planner::{Rule, Slip, first_violated};

// How a list is made. Honest: hand steps on the first violated rule, and each third call takes back the last step that still stands.
// Forged: hand steps on rules 0 and 1 in turn, and each third call puts a job back at its latest time, by a slip that no step gave.
// By chance: any calls, from a number.
#[derive(Clone, Copy)]
pub enum Mix {
    Honest,
    Forged,
    Chance(usize),
}

// How many calls of a list were done, and how many were refused with 24 to 29.
#[derive(Clone, Copy)]
pub struct Played {
    pub steps: u64,
    pub backs: u64,
    pub refused: [u64; 6],
}

// The slips of the steps done, without those that an honest list took back, behind one that takes nothing off.
#[derive(Clone, Copy)]
struct Slips {
    slips: [Slip; 13],
    count: usize,
}

impl Slips {
    fn new() -> Slips {
        let slip = Slip {
            job: 0,
            before: 0,
            after: 0,
        };
        Slips {
            slips: [slip; 13],
            count: 1,
        }
    }

    fn push(&mut self, slip: Slip) {
        if self.count < 13 {
            self.slips[self.count] = slip;
            self.count += 1;
        }
    }

    fn last(&self) -> Slip {
        self.slips[self.count.saturating_sub(1).min(12)]
    }

    // One of the slips by a number.
    fn named(&self, number: usize) -> Slip {
        self.slips[(number % self.count.max(1)).min(12)]
    }
}

// The next number by chance, the same in each run of the program.
fn next(chance: u64) -> u64 {
    chance
        .wrapping_mul(6364136223846793005)
        .wrapping_add(1442695040888963407)
}

// A call by a number: a hand step, also on a rule that is not there; the slip of a step done, taken back or not; a slip that is made up but
// fits the board's job, of one minute or two; or any slip, also of a job that is not there.
fn by_chance(n: usize, state: State, slips: &Slips, number: usize) -> Call
    requires { 0 < n }
{
    let more = number / 16;
    match number % 16 {
        0 => Call::Step(more % 3),
        1..=7 => Call::Step(more % 2),
        8..=11 => Call::Back(slips.named(more)),
        12..=14 => {
            let job = job(n, more);
            let after = time_of(state.times, job);
            let off = 1 + (more / 4 % 2) as i32;
            Call::Back(Slip {
                job,
                before: after.saturating_add(off),
                after,
            })
        }
        _ => Call::Back(Slip {
            job: (more % 4) as u16,
            before: 1 - (more / 4 % 8) as i32,
            after: -((more / 32 % 8) as i32),
        }),
    }
}

impl Mix {
    // The call at a turn, where this rule is the first violated one of the board, if any.
    fn call(
        self,
        turn: usize,
        n: usize,
        latest: [i32; 3],
        state: State,
        slips: &Slips,
        found: Option<usize>,
        chance: u64,
    ) -> Call
        requires { 0 < n }
    {
        let third = turn % 3 == 2;
        match self {
            Mix::Honest if third => Call::Back(slips.last()),
            Mix::Honest => Call::Step(found.unwrap_or(0)),
            Mix::Forged if third => {
                let job = job(n, turn / 3);
                Call::Back(Slip {
                    job,
                    before: time_of(latest, job),
                    after: time_of(state.times, job),
                })
            }
            Mix::Forged => Call::Step(turn % 2),
            Mix::Chance(_) => by_chance(n, state, slips, (chance >> 33) as usize),
        }
    }
}

fn is_below(times: [i32; 3], plan: [i32; 3]) -> bool {
    times[0] < plan[0] || times[1] < plan[1] || times[2] < plan[2]
}

// The first violated rule of a board, if any; `None` where the board is not what its book's plan, or that there is none, promises of it.
fn promised(
    n: usize,
    rules: &[Rule],
    latest: [i32; 3],
    plan: Option<[i32; 3]>,
    state: State,
) -> Option<Option<usize>>
    requires { n ≤ 3 }
{
    let State { times, tally } = state;
    let found = match first_violated(n, rules, &latest[..n], &times[..n]) {
        Ok(found) => found,
        Err(_) => return None,
    };
    let floor = floor_of(rules, latest);
    let none = shows_none(rules, latest, times);
    let bound = latest[..n].iter().fold(0u64, |sum, last| {
        sum.saturating_add(u64::from(last.abs_diff(floor)))
    });
    let kept = match plan {
        Some(plan) => {
            let done = found.is_none();
            let most = tally.steps < bound || tally.steps == bound && done;
            !is_below(times, plan) && !none && (times == plan) == done && most
        }
        None => found.is_some()
            && (tally.steps <= bound || tally.steps == bound.saturating_add(1) && none),
    };
    if kept && tally.minutes == depth(times).saturating_sub(depth(latest)) {
        Some(found)
    } else {
        None
    }
}

// Plays a list of twelve calls; `None` where a call says or leaves anything but what the reference does, or where a board is not what is
// promised of it.
pub fn play(
    mix: Mix,
    n: usize,
    rules: &[Rule],
    latest: [i32; 3],
    plan: Option<[i32; 3]>,
) -> Option<Played>
    requires { (0 < n) × (n ≤ 3) }
{
    let mut state = fresh(n, latest)?;
    let mut slips = Slips::new();
    let mut chance = match mix {
        Mix::Chance(number) => number as u64,
        _ => 0,
    };
    let mut played = Played {
        steps: 0,
        backs: 0,
        refused: [0; 6],
    };
    for turn in 0..12 {
        let found = promised(n, rules, latest, plan, state)?;
        chance = next(chance);
        let call = mix.call(turn, n, latest, state, &slips, found, chance);
        let (said, after) = called(n, rules, latest, state, call)?;
        state = after;
        match said {
            Ok(Some(slip)) => {
                played.steps = played.steps.saturating_add(1);
                slips.push(slip);
            }
            Ok(None) => {
                played.backs = played.backs.saturating_add(1);
                if let Mix::Honest = mix {
                    slips.count = slips.count.saturating_sub(1);
                }
            }
            Err(fault) => {
                let number = usize::from(u8::from(fault)).saturating_sub(24).min(5);
                played.refused[number] = played.refused[number].saturating_add(1);
            }
        }
        if state.tally.steps.saturating_add(played.backs) != played.steps {
            return None;
        }
    }
    promised(n, rules, latest, plan, state)?;
    Some(played)
}
