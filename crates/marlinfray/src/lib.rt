// The public calls for C and Rust: `rt lib` here writes out/libmarlinfray.a, and embed/marlinfray.h says how C calls it. In C a
// slice is a pointer and a length, and the reply is five numbers that the caller lends.

#![tactic(auto)]

ghost use Rattle.std.specs.Prelude.{◌≡◌, MatchResult, length};
ghost use Rattle.maxatom.specs.Book.{book};
ghost use Rattle.maxatom.specs.Class.{class_of};
ghost use Rattle.maxatom.specs.declared.Rule.{Rule};
ghost use Rattle.derivation.specs.Refusals.{verdict};
ghost use Rattle.derivation.specs.Step.{step_call};
ghost use Rattle.derivation.specs.Back.{back_call};
ghost use Rattle.derivation.specs.Calls.{model_check_call, tight_call, initial_reply, initial_times, run_reply, run_times};
ghost use Rattle.derivation.specs.Replies.{model_check, solved_answer, state_of};
ghost use Rattle.maxatom.specs.Class.{number_of_class};
ghost use Rattle.bookfile.specs.Reading.{place_of};
ghost use Rattle.bookfile.specs.Replies.{read_reply, read_rules, read_latest};
ghost use Rattle.bookfile.specs.Writing.{plan_checks, plan_out};
ghost use Rattle.converter.specs.Converting.{convert_reply, convert_out};
ghost use Rattle.marlinfray.specs.Exported.{words, timed, reply_words, refusal_words, done_words, slip_words, run_words};
ghost use Rattle.marlinfray.specs.Exported.{count_words, length_words, check_words, tight_words, place_words};

use planner::{Class, Counts, Refusal, Rule, Slip, Solved, Tally};

// A reply: what kind it is (0 an answer, 1 an answer against, 2 a refusal), two numbers, and a slip's times before and after, which are 0
// where the reply has no slip. The kind is a number because C reads it.
#[repr(C)]
#[derive(Drop)]
pub struct Words {
    pub kind: u64,
    pub first: u64,
    pub second: u64,
    pub before: i32,
    pub after: i32,
}

impl Words {
    // A reply with no slip.
    fn new(kind: u64, first: u64, second: u64) -> Words
        ensures { result ≡ words kind first second }
    {
        Words {
            kind,
            first,
            second,
            before: 0,
            after: 0,
        }
    }

    // A reply with the times of a slip.
    fn timed(kind: u64, first: u64, second: u64, slip: Slip) -> Words
        ensures { result ≡ timed kind first second slip }
    {
        Words {
            kind,
            first,
            second,
            before: slip.before,
            after: slip.after,
        }
    }
}

// Fresh board, step back, plan writer: it was done.
impl From<()> for Words {
    ghost from_gives = { λ done w. w ≡ done_words tt };

    fn from(_done: ()) -> Words {
        Words::new(0, 0, 0)
    }
}

// The reader: the job count and the rule count.
impl From<Counts> for Words {
    ghost from_gives = { λ counts w. w ≡ count_words counts };

    fn from(counts: Counts) -> Words {
        Words::new(0, counts.jobs as u64, counts.rules as u64)
    }
}

// The converter: the bytes written.
impl From<usize> for Words {
    ghost from_gives = { λ len w. w ≡ length_words len };

    fn from(len: usize) -> Words {
        Words::new(0, len as u64, 0)
    }
}

// Kept test: all rules are kept, or the first broken one.
impl From<Option<usize>> for Words {
    ghost from_gives = { λ found w. w ≡ check_words (model_check found) };

    fn from(found: Option<usize>) -> Words {
        match found {
            None => Words::new(0, 0, 0),
            Some(i) => Words::new(1, i as u64, 0),
        }
    }
}

// Tight test: whether the rule is tight.
impl From<bool> for Words {
    ghost from_gives = { λ tight w. w ≡ tight_words tight };

    fn from(tight: bool) -> Words {
        Words::new(0, u64::from(tight), 0)
    }
}

// Hand step: the slip, which is the job and its times before and after.
impl From<Slip> for Words {
    ghost from_gives = { λ slip w. w ≡ slip_words slip };

    fn from(slip: Slip) -> Words {
        Words::timed(0, u64::from(slip.job), 0, slip)
    }
}

// Bench run: the steps for a plan; the steps and the slip of the last for none.
impl From<Solved> for Words {
    ghost from_gives = { λ solved w. w ≡ run_words (solved_answer solved) };

    fn from(solved: Solved) -> Words {
        match solved {
            Solved::Plan(steps) => Words::new(0, steps, 0),
            Solved::None(steps, slip) => Words::timed(1, steps, u64::from(slip.job), slip),
        }
    }
}

// A refusal: its number and its place.
impl From<Refusal> for Words {
    ghost from_gives = { λ refusal w. w ≡ refusal_words refusal };

    fn from(refusal: Refusal) -> Words {
        Words::new(2, u64::from(u8::from(refusal.fault)), refusal.place as u64)
    }
}

// A call: the words of its answer, or of its refusal.
impl<T> From<Result<T, Refusal>> for Words
where
    Words: From<T>,
{
    ghost from_gives = { λ said w.
        MatchResult said (λ a. ⟦<Words as From<T>>⟧.from_gives a w) (λ refusal. w ≡ refusal_words refusal) };

    fn from(said: Result<T, Refusal>) -> Words {
        match said {
            Ok(answer) => <Words as From<T>>::from(answer),
            Err(refusal) => <Words as From<Refusal>>::from(refusal),
        }
    }
}

// The reader.
#[unsafe(no_mangle)]
pub extern "C" fn marlinfray_read_book(
    file: &[u8],
    rules: &mut [Rule],
    latest: &mut [i32],
    reply: &mut Words,
)
    ensures { (reply.new ≡ reply_words count_words (read_reply file.now (length rules.old) (length latest.old)))
        × (rules.new ≡ read_rules file.now rules.old latest.old)
        × (latest.new ≡ read_latest file.now rules.old latest.old) }
{
    *reply = planner::read_book(file, rules, latest).into();
}

// A rule's record, as a stretch of the file.
#[unsafe(no_mangle)]
pub extern "C" fn marlinfray_record(file: &[u8], number: usize, reply: &mut Words)
    ensures { reply.new ≡ place_words (place_of file.now number) }
{
    let place = bookfile::reading::stretch_of(file, number);
    *reply = Words::new(0, place.at as u64, place.size as u64);
}

// The converter.
#[unsafe(no_mangle)]
pub extern "C" fn marlinfray_convert(file: &[u8], out: &mut [u8], reply: &mut Words)
    ensures { (reply.new ≡ reply_words length_words (convert_reply file.now (length out.old)))
        × (out.new ≡ convert_out file.now out.old) }
{
    *reply = converter::convert(file, out).into();
}

// The class of a rule, as a number, since C reads it: 0 idle, 1 impossible, 2 one-armed, 3 two-armed.
#[tactic(auto, unfolding(maxatom::specs::Class::number_of_class))]
#[unsafe(no_mangle)]
pub extern "C" fn marlinfray_class(x: u16, y: u16, z: u16, k: i32) -> u8
    ensures { result ≡ number_of_class (class_of (record { x = x; y = y; z = z; k = k })) }
{
    let r = Rule { x, y, z, k };
    match r.class() {
        Class::Tautology => 0,
        Class::Contradiction => 1,
        Class::Difference => 2,
        Class::Disjunctive => 3,
    }
}

// Kept test.
#[unsafe(no_mangle)]
pub extern "C" fn marlinfray_first_violated(
    n: usize,
    rules: &[Rule],
    latest: &[i32],
    times: &[i32],
    reply: &mut Words,
)
    ensures { reply.new ≡ reply_words check_words (model_check_call (book n latest.now rules.now) times.now) }
{
    *reply = planner::first_violated(n, rules, latest, times).into();
}

// Tight test.
#[unsafe(no_mangle)]
pub extern "C" fn marlinfray_is_tight(
    n: usize,
    rules: &[Rule],
    latest: &[i32],
    times: &[i32],
    number: usize,
    reply: &mut Words,
)
    ensures { reply.new ≡ reply_words tight_words (tight_call (book n latest.now rules.now) times.now number) }
{
    *reply = planner::is_tight(n, rules, latest, times, number).into();
}

// Fresh board.
#[unsafe(no_mangle)]
pub extern "C" fn marlinfray_initial(n: usize, latest: &[i32], times: &mut [i32], reply: &mut Words)
    ensures { (reply.new ≡ reply_words done_words (initial_reply n latest.now times.old))
        × (times.new ≡ initial_times n latest.now times.old) }
{
    *reply = planner::initial(n, latest, times).into();
}

// Hand step.
#[unsafe(no_mangle)]
pub extern "C" fn marlinfray_step(
    n: usize,
    rules: &[Rule],
    latest: &[i32],
    times: &mut [i32],
    tally: &mut Tally,
    number: usize,
    reply: &mut Words,
)
    ensures { (reply.new ≡ reply_words slip_words (step_call (book n latest.now rules.now) (state_of times.old tally.old) number).said)
        × (times.new ≡ (step_call (book n latest.now rules.now) (state_of times.old tally.old) number).after.times)
        × (tally.new ≡ (step_call (book n latest.now rules.now) (state_of times.old tally.old) number).after.tally) }
{
    *reply = planner::step(n, rules, latest, times, tally, number).into();
}

// Step back. The slip may be any three numbers.
#[unsafe(no_mangle)]
pub extern "C" fn marlinfray_step_back(
    n: usize,
    rules: &[Rule],
    latest: &[i32],
    times: &mut [i32],
    tally: &mut Tally,
    slip: &Slip,
    reply: &mut Words,
)
    ensures { (reply.new ≡ reply_words done_words (back_call (book n latest.now rules.now) (state_of times.old tally.old) slip.now).said)
        × (times.new ≡ (back_call (book n latest.now rules.now) (state_of times.old tally.old) slip.now).after.times)
        × (tally.new ≡ (back_call (book n latest.now rules.now) (state_of times.old tally.old) slip.now).after.tally) }
{
    *reply = planner::step_back(n, rules, latest, times, tally, *slip).into();
}

// Bench run.
#[unsafe(no_mangle)]
pub extern "C" fn marlinfray_solve(
    n: usize,
    rules: &[Rule],
    latest: &[i32],
    times: &mut [i32],
    reply: &mut Words,
)
    ensures { (reply.new ≡ reply_words run_words (run_reply (book n latest.now rules.now) times.old))
        × (times.new ≡ run_times (book n latest.now rules.now) times.old) }
{
    *reply = planner::solve(n, rules, latest, times).into();
}

// Plan writer.
#[unsafe(no_mangle)]
pub extern "C" fn marlinfray_write_plan(times: &[i32], out: &mut [u8], at: usize, reply: &mut Words)
    ensures { (reply.new ≡ reply_words done_words (verdict (plan_checks times.now out.old at)))
        × (out.new ≡ plan_out times.now out.old at) }
{
    *reply = planner::write_plan(times, out, at).into();
}
