// The examples and the limits, at run time through the planner's public calls, one line a case.

#![tactic(auto)]

mod lending;
mod said;

use lending::{first, lent, read_book};
use planner::{
    Counts, Rule, Slip, Solved, Tally, first_violated, initial, is_tight, solve, step, step_back,
};
use said::{
    Back, Book, Fresh, Kept, Kind, Minutes, Numbers, Off, Run, Said, Stepped, Table, Tight, Told,
};
use std::io;

fn rule(x: u16, y: u16, z: u16, k: i32) -> Rule {
    Rule { x, y, z, k }
}

fn slip(job: u16, before: i32, after: i32) -> Slip {
    Slip { job, before, after }
}

fn classes(rt: &impl Print, rules: &[Rule]) -> io::Result<()> {
    for r in rules {
        let kind = Kind(r.class());
        print!(rt; " {kind}")?;
    }
    Ok(())
}

fn sum(minutes: &[i32]) -> i64 {
    minutes
        .iter()
        .fold(0i64, |sum, t| sum.saturating_add(i64::from(*t)))
}

// A book: its latest times and its classes, what the bench run says and leaves, and the kept and the tight test on what it leaves. Where it
// finds none, its last step is then taken back.
fn bench(
    rt: &impl Print,
    n: usize,
    rules: &[Rule],
    latest: &[i32],
    times: &mut [i32],
) -> io::Result<()> {
    let book = Book(n, rules.len());
    let last = Minutes("LATEST", latest);
    print!(rt; " {book} {last}")?;
    classes(rt, rules)?;
    let solved = solve(n, rules, latest, times);
    let run = Said(solved.map(|solved| Run(solved)));
    let left = Minutes("TIMES", times);
    let kept = Said(first_violated(n, rules, latest, times).map(|found| Kept(found)));
    print!(rt; " {run} {left} {kept}")?;
    for number in 0..rules.len() {
        let tight = Said(is_tight(n, rules, latest, times, number).map(|tight| Tight(tight)));
        print!(rt; " {tight}")?;
    }
    if let Ok(Solved::None(steps, off)) = solved {
        let below = sum(latest).saturating_sub(sum(times));
        let mut tally = Tally {
            steps,
            minutes: u64::try_from(below).unwrap_or(0),
        };
        taken_back(rt, n, rules, latest, times, &mut tally, off)?;
        let left = Minutes("TIMES", times);
        let told = Told(tally);
        print!(rt; " {left} {told}")?;
    }
    Ok(())
}

// A step taken back, and what the call says.
fn taken_back(
    rt: &impl Print,
    n: usize,
    rules: &[Rule],
    latest: &[i32],
    times: &mut [i32],
    tally: &mut Tally,
    off: Slip,
) -> io::Result<()> {
    let back = Said(step_back(n, rules, latest, times, tally, off).map(|_| Back));
    print!(rt; " {back}")
}

// A fresh board, and three rounds of hand steps on it: on rule 0 upward, the last on no rule. Then each step is taken back, the last one
// first, and the first one once more.
fn hand(
    rt: &impl Print,
    n: usize,
    rules: &[Rule],
    latest: &[i32],
    times: &mut [i32],
) -> io::Result<()> {
    let fresh = Said(initial(n, latest, times).map(|_| Fresh));
    print!(rt; " {fresh}")?;
    let mut tally = Tally {
        steps: 0,
        minutes: 0,
    };
    let mut slips = [slip(0, 0, 0); 24];
    let mut count = 0usize;
    for _ in 0..3 {
        for number in 0..=rules.len() {
            let said = step(n, rules, latest, times, &mut tally, number);
            let stepped = Said(said.map(|off| Stepped(off)));
            print!(rt; " {stepped}")?;
            if let Ok(off) = said {
                if count < 24 {
                    slips[count] = off;
                    count += 1;
                }
            }
        }
    }
    let left = Minutes("TIMES", times);
    let told = Told(tally);
    print!(rt; " {left} {told}")?;
    for off in slips[..count.min(24)].iter().rev() {
        taken_back(rt, n, rules, latest, times, &mut tally, *off)?;
    }
    for off in &slips[..count.min(1)] {
        taken_back(rt, n, rules, latest, times, &mut tally, *off)?;
    }
    let left = Minutes("TIMES", times);
    let told = Told(tally);
    print!(rt; " {left} {told}")
}

// A book: a line with the bench run, and one with hand steps and steps back.
fn both(
    rt: &impl Print,
    name: &str,
    n: usize,
    rules: &[Rule],
    latest: &[i32; 257],
) -> io::Result<()> {
    let mut times = [7; 257];
    let mut board = [7; 257];
    if n <= 257 {
        print!(rt; "{name}")?;
        bench(rt, n, rules, &latest[..n], &mut times[..n])?;
        println!(rt)?;
        print!(rt; "{name}")?;
        hand(rt, n, rules, &latest[..n], &mut board[..n])?;
        println!(rt)?;
    }
    Ok(())
}

fn example(rt: &impl Print, name: &str, file: &[u8]) -> io::Result<()> {
    let mut table = [rule(0, 0, 0, 0); 1025];
    let mut latest = [7; 257];
    match read_book(file, &mut table, 1025, &mut latest, 257) {
        Ok(counts) => both(rt, name, counts.jobs, lent(&table, counts.rules), &latest),
        Err(refusal) => {
            let refused = Said::<Stepped>(Err(refusal));
            println!(rt; "{name} {refused}")
        }
    }
}

// The reader, with `places` places in the table and `minutes` in the list, and what it leaves in them.
fn reading(
    rt: &impl Print,
    name: &str,
    file: &[u8],
    places: usize,
    minutes: usize,
) -> io::Result<()> {
    let mut table = [rule(7, 7, 7, 7); 1025];
    let mut latest = [7; 257];
    let read = read_book(file, &mut table, places, &mut latest, minutes);
    let said = Said(read.map(|c| Book(c.jobs, c.rules)));
    let rules = Table(lent(&table, places));
    let last = Minutes("LATEST", first(&latest, minutes));
    println!(rt; "{name} PLACES {places} {minutes} {said} {rules} {last}")
}

// A file cut off at each length, with a place for a rule and three for latest times.
fn cut_off(rt: &impl Print, file: &[u8]) -> io::Result<()> {
    for length in 0..=file.len() {
        print!(rt; "cut off at {length}")?;
        reading(rt, "", &file[..length], 1, 3)?;
    }
    Ok(())
}

// Example L: a hand step that leaves its rule broken.
fn step_of_l(rt: &impl Print) -> io::Result<()> {
    let rules = [rule(0, 1, 0, -1), rule(0, 0, 1, -3)];
    let latest = [0, 0];
    let mut times = [0, -3];
    let mut tally = Tally {
        steps: 1,
        minutes: 3,
    };
    let said = step(2, &rules, &latest, &mut times, &mut tally, 0);
    let stepped = Said(said.map(|off| Stepped(off)));
    let left = Minutes("TIMES", &times);
    let told = Told(tally);
    let kept = Said(first_violated(2, &rules, &latest, &times).map(|found| Kept(found)));
    println!(rt; "L {stepped} {left} {told} {kept}")
}

// Each call that takes latest times: the bench run, the tests on what it leaves, the fresh board, a hand step on that, and the step taken
// back, or none by a slip of a job that no book has.
fn each_call(
    rt: &impl Print,
    n: usize,
    rules: &[Rule],
    latest: &[i32],
    times: &mut [i32],
    board: &mut [i32],
) -> io::Result<()> {
    let run = Said(solve(n, rules, latest, times).map(|solved| Run(solved)));
    let kept = Said(first_violated(n, rules, latest, times).map(|found| Kept(found)));
    let tight = Said(is_tight(n, rules, latest, times, 0).map(|tight| Tight(tight)));
    let fresh = Said(initial(n, latest, board).map(|_| Fresh));
    let mut tally = Tally {
        steps: 0,
        minutes: 0,
    };
    let said = step(n, rules, latest, board, &mut tally, 0);
    let stepped = Said(said.map(|off| Stepped(off)));
    let told = Told(tally);
    print!(rt; " {run} {kept} {tight} {fresh} {stepped} {told}")?;
    let off = said.unwrap_or(slip(65535, 0, 0));
    taken_back(rt, n, rules, latest, board, &mut tally, off)?;
    let told = Told(tally);
    print!(rt; " {told}")
}

// A table of `count` times one rule, with one latest time for all jobs, and with list and buffers of a length.
fn limit(
    rt: &impl Print,
    n: usize,
    r: Rule,
    count: usize,
    minute: i32,
    length: usize,
) -> io::Result<()> {
    let numbers = Numbers(r);
    print!(rt; "LIMIT {n} {numbers} {count} {minute} {length}")?;
    let table = [r; 1025];
    let latest = [minute; 257];
    let mut times = [7; 257];
    let mut board = [7; 257];
    if length <= 257 {
        each_call(
            rt,
            n,
            lent(&table, count),
            &latest[..length],
            &mut times[..length],
            &mut board[..length],
        )?;
    }
    println!(rt)
}

// A table with a list of latest times, and with buffers of a length; what the calls leave in the buffers.
fn listed(
    rt: &impl Print,
    n: usize,
    rules: &[Rule],
    latest: &[i32],
    length: usize,
) -> io::Result<()> {
    let last = Minutes("LATEST", latest);
    let table = Table(rules);
    print!(rt; "LIST {n} {length} {last} {table}")?;
    classes(rt, rules)?;
    let mut times = [7; 4];
    let mut board = [7; 4];
    if length <= 4 {
        each_call(
            rt,
            n,
            rules,
            latest,
            &mut times[..length],
            &mut board[..length],
        )?;
        let left = Minutes("TIMES", &times[..length]);
        let stood = Minutes("BOARD", &board[..length]);
        print!(rt; " {left} {stood}")?;
    }
    println!(rt)
}

// The reader, the latest times, and each call on the book that was read.
fn read_and_called(rt: &impl Print, name: &str, file: &[u8]) -> io::Result<()> {
    let mut table = [rule(0, 0, 0, 0); 1025];
    let mut latest = [7; 257];
    let mut times = [7; 257];
    let mut board = [7; 257];
    let read = read_book(file, &mut table, 1025, &mut latest, 257);
    let said = Said(read.map(|c| Book(c.jobs, c.rules)));
    let last = Minutes("LATEST", &latest);
    print!(rt; "{name} {said} {last}")?;
    match read {
        Ok(Counts { jobs, rules }) if jobs <= 257 => each_call(
            rt,
            jobs,
            lent(&table, rules),
            &latest[..jobs],
            &mut times[..jobs],
            &mut board[..jobs],
        )?,
        _ => {}
    }
    println!(rt)
}

// A book of 256 jobs, each with a latest time of its own.
fn most_latest(rt: &impl Print) -> io::Result<()> {
    let mut file = [0; 2064];
    file[..4].copy_from_slice(b"BK\x00\x01");
    for job in 0..256 {
        let at = 4 + job * 8;
        let minute = -79 * job as i32;
        file[at..at + 2].copy_from_slice(b"CE");
        file[at + 2..at + 4].copy_from_slice(&(job as u16).to_le_bytes());
        file[at + 4..at + 8].copy_from_slice(&minute.to_le_bytes());
    }
    file[2052..].copy_from_slice(b"RU\x00\x00\x01\x00\xff\x00\xff\xff\xff\xff");
    read_and_called(rt, "MOST", &file)
}

// A hand step on a rule, or on no rule, from any board and tally.
fn held(
    rt: &impl Print,
    r: Rule,
    latest: &[i32],
    times: &mut [i32],
    steps: u64,
    minutes: u64,
    number: usize,
) -> io::Result<()> {
    let mut tally = Tally { steps, minutes };
    let numbers = Numbers(r);
    let last = Minutes("LATEST", latest);
    let board = Minutes("TIMES", times);
    let told = Told(tally);
    print!(rt; "HELD {numbers} {last} {board} {told} {number}")?;
    let said = step(times.len(), &[r], latest, times, &mut tally, number);
    let stepped = Said(said.map(|off| Stepped(off)));
    let left = Minutes("TIMES", times);
    let told = Told(tally);
    println!(rt; " {stepped} {left} {told}")
}

// A step back by any slip, from any board and tally.
fn back(
    rt: &impl Print,
    rules: &[Rule],
    latest: &[i32],
    times: &mut [i32],
    steps: u64,
    minutes: u64,
    off: Slip,
) -> io::Result<()> {
    let mut tally = Tally { steps, minutes };
    let count = rules.len();
    let last = Minutes("LATEST", latest);
    let board = Minutes("TIMES", times);
    let told = Told(tally);
    let taken = Off(off);
    print!(rt; "BACK {count} {last} {board} {told} SLIP {taken}")?;
    taken_back(rt, times.len(), rules, latest, times, &mut tally, off)?;
    let left = Minutes("TIMES", times);
    let told = Told(tally);
    println!(rt; " {left} {told}")
}

// Steps back on a board of two jobs, whose rule puts job 1 three minutes before job 0: the floor is -5, and times may be from -8. A case is
// the two times, the tally's steps and minutes, and the slip.
fn backs(rt: &impl Print) -> io::Result<()> {
    let rules = [rule(0, 0, 1, -3)];
    let latest = [0, -2];
    for (first, last, steps, minutes, job, before, after) in [
        // 22, then 23, then 27, then 28, then 29.
        (1, -4, 0, 0, 2, 0, 0),
        (0, -9, 0, 0, 2, 0, 0),
        (0, -8, 1, 5, 2, 0, 0),
        (0, -8, 7, 6, 2, 0, 0),
        (0, -4, 0, 2, 2, 0, 0),
        (0, -4, 0, 2, 1, -1, -4),
        // The job.
        (0, -4, 1, 2, 2, -2, -4),
        (0, -4, 1, 2, 65535, -2, -4),
        (0, -4, 1, 2, 1, -2, -4),
        (0, -4, 1, 2, 0, -2, -4),
        // The time after.
        (0, -4, 1, 2, 1, -2, -3),
        (0, -4, 1, 2, 1, -2, -5),
        (0, -4, 1, 2, 1, -2, -2147483648),
        // The time before.
        (0, -4, 1, 2, 1, -5, -4),
        (0, -4, 1, 2, 1, -4, -4),
        (0, -4, 1, 2, 1, -3, -4),
        (0, -4, 1, 2, 1, -1, -4),
        (0, -4, 1, 2, 1, 2147483647, -4),
        (-1, -2, 1, 1, 0, 0, -1),
        (-1, -2, 1, 1, 0, 1, -1),
        // The tally.
        (0, -4, 0, 2, 1, -2, -4),
        (0, -4, 0, 2, 1, -3, -4),
        (0, -4, 2, 2, 1, -2, -4),
        (0, -4, 2, 2, 1, -3, -4),
        (-1, -4, 2, 3, 1, -2, -4),
        (-1, -4, 3, 3, 1, -2, -4),
        // Boards with nothing broken, and boards that show none.
        (0, -5, 1, 3, 1, -2, -5),
        (0, -6, 1, 4, 1, -5, -6),
        (0, -7, 1, 5, 1, -6, -7),
        (0, -8, 1, 6, 1, -2, -8),
    ] {
        back(
            rt,
            &rules,
            &latest,
            &mut [first, last],
            steps,
            minutes,
            slip(job, before, after),
        )?;
    }
    back(rt, &[], &latest, &mut [-2, -2], 2, 2, slip(0, -1, -2))
}

// Hand steps on boards of two jobs, on a rule that puts job 0 a minute before job 1; among them are 22 to 26 and steps. A case is the two
// times, the tally's steps and minutes, and the number of the rule that is named.
fn steps(rt: &impl Print) -> io::Result<()> {
    let r = rule(1, 1, 0, -1);
    for (first, last, steps, minutes, number) in [
        (1, 0, 0, 0, 0),
        (0, 1, 0, 0, 0),
        (-3, 0, 3, 3, 0),
        (-1, 0, 0, 0, 0),
        (-1, 0, 2, 1, 0),
        (-1, 0, 1, 1, 1),
        (-2, 0, 2, 2, 0),
        (-1, 0, 1, 1, 0),
        (0, 0, 0, 0, 0),
        (-1, -1, 1, 2, 0),
    ] {
        held(rt, r, &[0, 0], &mut [first, last], steps, minutes, number)?;
    }
    for (first, last, steps, minutes, number) in [
        (-4, -5, 0, 0, 0),
        (-8, -5, 3, 3, 0),
        (-6, -5, 1, 0, 0),
        (-6, -5, 1, 11, 0),
        (-6, -5, 1, 1, 1),
        (-7, -5, 2, 2, 0),
        (-6, -5, 1, 1, 0),
        (-6, -6, 1, 2, 0),
    ] {
        held(rt, r, &[-5, -5], &mut [first, last], steps, minutes, number)?;
    }
    for (first, last, minutes) in [
        (0, -4, 0),
        (0, -5, 0),
        (-6, -5, 6),
        (-6, -6, 7),
        (-7, -5, 7),
        (-8, -5, 8),
    ] {
        held(rt, r, &[0, -5], &mut [first, last], 0, minutes, 0)?;
    }
    Ok(())
}

// Tables with an impossible rule, and with rules next to that class.
fn impossible(rt: &impl Print) -> io::Result<()> {
    let before = rule(0, 0, 0, -1);
    let last = rule(1, 1, 1, -1);
    for offset in [-1, -20160, -20161, 0, 1] {
        listed(rt, 1, &[rule(0, 0, 0, offset)], &[0], 1)?;
    }
    listed(rt, 1, &[last], &[0], 1)?;
    for r in [last, rule(0, 1, 0, -1), rule(1, 0, 0, -1)] {
        listed(rt, 2, &[r], &[0, 0], 2)?;
    }
    // Before and behind another rule: one that is taken, one that is impossible, one with a job of n, one with an offset past the bound.
    for r in [
        rule(0, 0, 1, -1),
        rule(1, 1, 1, -2),
        rule(0, 0, 2, -1),
        rule(0, 0, 1, -20161),
    ] {
        listed(rt, 2, &[before, r], &[0, 0], 2)?;
        listed(rt, 2, &[r, before], &[0, 0], 2)?;
    }
    // 10 comes before 8 and 21, and behind 4 and 5.
    listed(rt, 1, &[before], &[1], 1)?;
    listed(rt, 1, &[before], &[], 1)?;
    listed(rt, 1, &[before], &[0, 0], 1)?;
    listed(rt, 1, &[before], &[0], 0)?;
    listed(rt, 1, &[before], &[0], 2)?;
    listed(rt, 0, &[before], &[0], 1)?;
    listed(rt, 257, &[before], &[0], 1)?;
    limit(rt, 1, before, 1024, 0, 1)?;
    limit(rt, 1, before, 1025, 0, 1)?;
    // It comes before 22 to 25.
    held(rt, before, &[0], &mut [1], 0, 0, 0)?;
    held(rt, before, &[0], &mut [-1], 0, 0, 0)?;
    held(rt, before, &[0], &mut [-1], 1, 1, 1)?;
    held(rt, before, &[0], &mut [-2], 2, 2, 0)
}

fn main(rt: HostRuntime) -> io::Result<()> {
    for (name, file) in example_books::NAMED {
        example(&rt, name, file)?;
    }
    step_of_l(&rt)?;
    for (places, minutes) in [(3, 4), (4, 3), (4, 4), (5, 5)] {
        reading(&rt, "B", example_books::B, places, minutes)?;
    }
    for (places, minutes) in [(0, 2), (1, 1), (1, 2), (2, 3)] {
        reading(&rt, "P", example_books::P, places, minutes)?;
    }
    for (name, file) in example_books::LATEST_LIMITS {
        reading(&rt, name, file, 1, 3)?;
    }
    for (name, file) in example_books::IMPOSSIBLE {
        reading(&rt, name, file, 3, 3)?;
    }
    reading(&rt, "D", example_books::D, 0, 0)?;
    cut_off(&rt, example_books::EARLIEST)?;
    most_latest(&rt)?;
    let idle = rule(0, 0, 0, 0);
    limit(&rt, 0, idle, 0, 0, 0)?;
    limit(&rt, 1, idle, 0, 0, 1)?;
    limit(&rt, 256, idle, 0, 0, 256)?;
    limit(&rt, 257, idle, 0, 0, 257)?;
    limit(&rt, 257, idle, 0, 1, 257)?;
    limit(&rt, 1, idle, 1024, 0, 1)?;
    limit(&rt, 1, idle, 1025, 0, 1)?;
    limit(&rt, 1, idle, 1025, 1, 1)?;
    for offset in [20160, 20161, -20160, -20161] {
        limit(&rt, 2, rule(0, 0, 1, offset), 1, 0, 2)?;
    }
    for job in [255, 256] {
        limit(&rt, 256, rule(0, 0, job, -1), 1, 0, 256)?;
    }
    for minute in [-20160, -20161, 0, 1] {
        limit(&rt, 256, rule(0, 0, 255, -20160), 1024, minute, 256)?;
    }
    let down = rule(0, 0, 1, -1);
    for length in 1..=3 {
        listed(&rt, 2, &[down], &[0, 0], length)?;
        listed(&rt, 2, &[down], &[0, 1], length)?;
    }
    listed(&rt, 2, &[down], &[0], 2)?;
    listed(&rt, 2, &[down], &[0, 0, 0], 2)?;
    listed(&rt, 2, &[down], &[1], 2)?;
    listed(&rt, 2, &[down], &[1, 1, 1], 2)?;
    listed(&rt, 2, &[down], &[-5, -3], 2)?;
    listed(&rt, 2, &[down], &[0, -20160], 2)?;
    listed(&rt, 2, &[down], &[0, -20161], 2)?;
    listed(&rt, 2, &[down], &[-20161, 1], 2)?;
    listed(&rt, 2, &[down], &[-20160, 0], 2)?;
    listed(&rt, 2, &[rule(0, 0, 1, -20161)], &[0, 1], 2)?;
    listed(&rt, 2, &[rule(0, 0, 1, -20161)], &[1], 2)?;
    listed(&rt, 2, &[rule(0, 0, 2, -1)], &[1, 1], 2)?;
    listed(&rt, 0, &[down], &[1], 2)?;
    listed(&rt, 257, &[down], &[1, 1], 2)?;
    impossible(&rt)?;
    steps(&rt)?;
    backs(&rt)
}
