// By the library: a fresh board's state, a call on a state, and every call on a table with an impossible rule.
ghost use Rattle.std.specs.Prelude.{◌≤◌};

use crate::reference;
use crate::reference::{Call, Called, State};
use planner::{
    Fault, Refusal, Rule, Slip, Tally, first_violated, initial, is_tight, solve, step, step_back,
};

// A fresh board, with a tally of zero; `None` where it is not at the latest times.
pub fn fresh(n: usize, latest: [i32; 3]) -> Option<State>
    requires { n ≤ 3 }
{
    let mut times = [0; 3];
    if initial(n, &latest[..n], &mut times[..n]).is_err() || times != latest {
        return None;
    }
    Some(State {
        times,
        tally: Tally {
            steps: 0,
            minutes: 0,
        },
    })
}

// Whether every call on a table is refused with 10 and this rule's number, and leaves what it is lent as it was.
pub fn all_refuse(n: usize, rules: &[Rule], latest: [i32; 3], number: usize) -> bool
    requires { n ≤ 3 }
{
    let refusal = Refusal {
        fault: Fault::ImpossibleRule,
        place: number,
    };
    let slip = Slip {
        job: 0,
        before: 0,
        after: 0,
    };
    let state = State {
        times: [7; 3],
        tally: Tally {
            steps: 0,
            minutes: 0,
        },
    };
    let mut after = state;
    let last = &latest[..n];
    let times = &mut after.times[..n];
    let tally = &mut after.tally;
    let refused = solve(n, rules, last, times) == Err(refusal)
        && first_violated(n, rules, last, times) == Err(refusal)
        && is_tight(n, rules, last, times, number) == Err(refusal)
        && step(n, rules, last, times, tally, number) == Err(refusal)
        && step_back(n, rules, last, times, tally, slip) == Err(refusal);
    refused && after == state
}

// What a call says, and the state after it; `None` where the reference says or leaves anything else.
pub fn called(
    n: usize,
    rules: &[Rule],
    latest: [i32; 3],
    state: State,
    call: Call,
) -> Option<Called>
    requires { n ≤ 3 }
{
    let mut after = state;
    let last = &latest[..n];
    let times = &mut after.times[..n];
    let said = match call {
        Call::Step(number) => {
            step(n, rules, last, times, &mut after.tally, number).map(|slip| Some(slip))
        }
        Call::Back(slip) => {
            step_back(n, rules, last, times, &mut after.tally, slip).map(|_| None)
        }
    };
    let place = match said {
        Ok(_) => 0,
        Err(refusal) => refusal.place,
    };
    let found = (said.map_err(|refusal| refusal.fault), after);
    if found == reference::called(n, rules, latest, state, call) && place == 0 {
        Some(found)
    } else {
        None
    }
}
