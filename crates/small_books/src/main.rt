// Every book of up to two rules over two jobs, and of two rules over three, with offsets from -1 to 1 and latest times from -2 to 0: the
// bench run, hand steps in three orders, and a search over all times from -6 up to the latest times must agree. Then hand steps are mixed
// with steps back, in three ways. What the bench run and each call answer and leave must be what the reference here says. A book with an
// impossible rule is counted apart: every call must refuse it with the number of the first such rule, and the search must find nothing.

#![tactic(auto)]

ghost use Rattle.std.specs.Prelude.{◌<◌, ◌≤◌};

mod books;
mod calling;
mod mixed;
mod reference;

use books::{are_ascending, latest_of, rules_of};
use calling::{all_refuse, called, fresh};
use mixed::{Mix, Played, play};
use planner::{Fault, Refusal, Rule, Solved, Tally, first_violated, solve};
use reference::{Call, all_satisfied, depth, first_impossible};
use std::fmt::Display;
use std::{fmt, io};

// What was found: a plan, none, or what should not be. A job that the book has not stands at 0. It is no `Option`, since three things may
// be found.
#[derive(Clone, Copy, PartialEq, Eq)]
enum Answer {
    Plan([i32; 3]),
    None,
    Odd,
}

// The later of two assignments, job by job.
fn later_of(s: [i32; 3], t: [i32; 3]) -> [i32; 3] {
    [s[0].max(t[0]), s[1].max(t[1]), s[2].max(t[2])]
}

// What a search finds: the latest time of each job, which must make a plan together. The floor is at -4 or above it: the offsets are two
// minutes at most in all, and no latest time is below -2.
fn searched(rules: &[Rule], latest: [i32; 3]) -> Answer {
    let mut best = None;
    for x in -6..=latest[0] {
        for y in -6..=latest[1] {
            for z in -6..=latest[2] {
                let times = [x, y, z];
                if all_satisfied(rules, times) {
                    best = Some(later_of(best.unwrap_or(times), times));
                }
            }
        }
    }
    match best {
        None => Answer::None,
        Some(times) => {
            if all_satisfied(rules, times) {
                Answer::Plan(times)
            } else {
                Answer::Odd
            }
        }
    }
}

// What the bench run finds, and its steps and minutes; `None` where the reference's answers or leaves anything else.
fn by_run(n: usize, rules: &[Rule], latest: [i32; 3]) -> Option<(Answer, Tally)>
    requires { n ≤ 3 }
{
    let mut times = [0; 3];
    let said = solve(n, rules, &latest[..n], &mut times[..n]);
    let (expected, left) = reference::run(rules, latest);
    let (answer, steps) = match expected {
        Solved::Plan(steps) => (Answer::Plan(left), steps),
        Solved::None(steps, _) => (Answer::None, steps),
    };
    let tally = Tally {
        steps,
        minutes: depth(left).saturating_sub(depth(latest)),
    };
    if said == Ok(expected) && times == left {
        Some((answer, tally))
    } else {
        None
    }
}

// The order of hand steps: from the last rule down, from the first up, or always on the first violated one.
#[derive(Clone, Copy)]
enum Order {
    Down,
    Up,
    First,
}

impl Order {
    // The rule that the order names at a turn, where this is found of the board.
    fn named(self, turn: usize, found: Result<Option<usize>, Refusal>) -> usize {
        match self {
            Order::Down => 1 - turn % 2,
            Order::Up => turn % 2,
            Order::First => found.unwrap_or(None).unwrap_or(0),
        }
    }
}

// What hand steps from a fresh board find in an order, and the tally they leave; `None` where one differs from the reference's. They end
// with all rules satisfied, or with a step that is refused since the board shows none. A book takes at most 11 steps, and any two turns
// name a violated rule. A rule that is satisfied or is not there is refused, and nothing changes.
fn by_hand(order: Order, n: usize, rules: &[Rule], latest: [i32; 3]) -> Option<(Answer, Tally)>
    requires { n ≤ 3 }
{
    let mut state = fresh(n, latest)?;
    for turn in 0..24 {
        let found = first_violated(n, rules, &latest[..n], &state.times[..n]);
        if let Ok(None) = found {
            return Some((Answer::Plan(state.times), state.tally));
        }
        let call = Call::Step(order.named(turn, found));
        let (said, after) = called(n, rules, latest, state, call)?;
        if let Err(Fault::ShowsNone) = said {
            return Some((Answer::None, state.tally));
        }
        state = after;
    }
    None
}

// What one way of calls found of some books.
#[derive(Clone, Copy)]
struct Sums {
    books: u64,
    plans: u64,
    nones: u64,
    steps: u64,
    minutes: u64,
    differing: u64,
}

impl Display for Sums {
    fn fmt<W: fmt::Write>(&self, f: &mut fmt::Formatter<W>) -> fmt::Result {
        let Sums {
            books,
            plans,
            nones,
            steps,
            minutes,
            differing,
        } = self;
        write!(
            f,
            "BOOKS {books} PLANS {plans} NONES {nones} STEPS {steps} MINUTES {minutes} DIFFERING {differing}"
        )
    }
}

impl Sums {
    fn new() -> Sums {
        Sums {
            books: 0,
            plans: 0,
            nones: 0,
            steps: 0,
            minutes: 0,
            differing: 0,
        }
    }

    // Sums one more book: what was found of it, which must be what the search found, and the tally.
    fn count(&mut self, searched: Answer, found: Option<(Answer, Tally)>) {
        self.books = self.books.saturating_add(1);
        match found {
            Some((answer, tally)) if answer == searched => {
                self.steps = self.steps.saturating_add(tally.steps);
                self.minutes = self.minutes.saturating_add(tally.minutes);
                match answer {
                    Answer::Plan(_) => self.plans = self.plans.saturating_add(1),
                    Answer::None => self.nones = self.nones.saturating_add(1),
                    Answer::Odd => self.differing = self.differing.saturating_add(1),
                }
            }
            _ => self.differing = self.differing.saturating_add(1),
        }
    }
}

// What the lists of one mix came to.
#[derive(Clone, Copy)]
struct Totals {
    books: u64,
    steps: u64,
    backs: u64,
    refused: [u64; 6],
    differing: u64,
}

impl Display for Totals {
    fn fmt<W: fmt::Write>(&self, f: &mut fmt::Formatter<W>) -> fmt::Result {
        let Totals {
            books,
            steps,
            backs,
            refused,
            differing,
        } = self;
        write!(f, "BOOKS {books} STEPS {steps} BACKS {backs} REFUSED")?;
        for count in refused {
            write!(f, " {count}")?;
        }
        write!(f, " DIFFERING {differing}")
    }
}

impl Totals {
    fn new() -> Totals {
        Totals {
            books: 0,
            steps: 0,
            backs: 0,
            refused: [0; 6],
            differing: 0,
        }
    }

    // Sums one more list.
    fn count(&mut self, played: Option<Played>) {
        self.books = self.books.saturating_add(1);
        match played {
            None => self.differing = self.differing.saturating_add(1),
            Some(played) => {
                self.steps = self.steps.saturating_add(played.steps);
                self.backs = self.backs.saturating_add(played.backs);
                for i in 0..6 {
                    self.refused[i] = self.refused[i].saturating_add(played.refused[i]);
                }
            }
        }
    }
}

// All books of `count` rules, which are `many`, with the latest times of the numbers below `choices`.
fn show(rt: &impl Print, n: usize, count: usize, many: usize, choices: usize) -> io::Result<()>
    requires { (0 < n) × (n ≤ 3) × (count ≤ 2) × (many ≤ 6561) × (choices ≤ 27) }
{
    let mut impossible = 0u64;
    let mut differing = 0u64;
    let mut run = Sums::new();
    let mut down = Sums::new();
    let mut up = Sums::new();
    let mut first = Sums::new();
    let mut honest = Totals::new();
    let mut forged = Totals::new();
    let mut chance = Totals::new();
    for number in 0..many {
        let both = rules_of(n, number);
        let rules = &both[..count];
        for choice in 0..choices {
            let latest = latest_of(choice);
            if are_ascending(latest) {
                let answer = searched(rules, latest);
                if let Some(number) = first_impossible(rules) {
                    impossible = impossible.saturating_add(1);
                    if answer != Answer::None || !all_refuse(n, rules, latest, number) {
                        differing = differing.saturating_add(1);
                    }
                    continue;
                }
                run.count(answer, by_run(n, rules, latest));
                down.count(answer, by_hand(Order::Down, n, rules, latest));
                up.count(answer, by_hand(Order::Up, n, rules, latest));
                first.count(answer, by_hand(Order::First, n, rules, latest));
                let plan = match answer {
                    Answer::Plan(times) => Some(times),
                    _ => None,
                };
                honest.count(play(Mix::Honest, n, rules, latest, plan));
                forged.count(play(Mix::Forged, n, rules, latest, plan));
                chance.count(play(Mix::Chance(number * 27 + choice), n, rules, latest, plan));
            }
        }
    }
    println!(rt; "JOBS {n} RULES {count} IMPOSSIBLE BOOKS {impossible} DIFFERING {differing}")?;
    for (name, sums) in [("RUN", run), ("DOWN", down), ("UP", up), ("FIRST", first)] {
        println!(rt; "JOBS {n} RULES {count} {name} {sums}")?;
    }
    for (name, sums) in [("HONEST", honest), ("FORGED", forged), ("CHANCE", chance)] {
        println!(rt; "JOBS {n} RULES {count} {name} {sums}")?;
    }
    Ok(())
}

fn main(rt: HostRuntime) -> io::Result<()> {
    show(&rt, 2, 0, 1, 9)?;
    show(&rt, 2, 1, 24, 9)?;
    show(&rt, 2, 2, 576, 9)?;
    show(&rt, 3, 2, 6561, 27)
}
