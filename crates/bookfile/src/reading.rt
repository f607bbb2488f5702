// The reader.
ghost use Rattle.std.specs.Prelude.{◌≡◌, false, [], ◌+◌, ◌<◌, ◌≤◌, eqb, length, get_or, IfOk};
ghost use Rattle.maxatom.specs.Book.{most_jobs, most_rules};
ghost use Rattle.derivation.specs.Replies.{read_of};
ghost use Rattle.bookfile.specs.Numbers.{word};
ghost use Rattle.bookfile.specs.declared.mark.Form.TheVariants.{Sent};
ghost use Rattle.bookfile.specs.Kinds.{HR, decoded_latest, size_at, decoded_rule};
ghost use Rattle.bookfile.specs.Reading.{latest_here, latest_record_reply, latest_from, rule_reply, rules_from, rules_begin, entries, rules_of_file, latest_of_file, place_of, record_of};
ghost use Rattle.bookfile.specs.Replies.{counted, file_reply, read_reply, read_rules, read_latest};
ghost use Rattle.bookfile.specs.Inner.{fields_fault, said_at, byte_of, head_reply, ended, checked_reply, Listed, Begins};

use crate::bytes::{signed32, word};
use crate::mark::{Form, Mark};
use derivation::{Counts, Fault, Refusal};
use maxatom::Rule;
use table::{check_bounds, check_rule, check_time};

// A job and its latest time.
#[derive(Clone, Copy)]
struct LatestTime {
    job: u16,
    minute: i32,
}

// A file that is not refused: its counts, and the byte where the first rule's record begins.
#[derive(Clone, Copy)]
pub struct Checked {
    pub counts: Counts,
    pub begin: usize,
}

// A latest time's record begins at a byte.
fn is_latest(file: &[u8], at: usize) -> bool
    requires { at ≤ length file.now }
    ensures { result ≡ latest_here file.now at }
{
    2 <= file.len() - at && Mark::try_from(word(file, at)) == Ok(Mark::Latest)
}

// The job and the minute of the latest time's record that begins at a byte.
fn decoded_latest(file: &[u8], at: usize) -> LatestTime
    requires { at + 8 ≤ length file.now }
    ensures { result ≡ decoded_latest file.now at }
{
    LatestTime {
        job: word(file, at + 2),
        minute: signed32(file, at + 4),
    }
}

// The record that begins at a byte has its offset in hours.
pub fn is_in_hours(file: &[u8], at: usize) -> bool
    requires { at + 2 ≤ length file.now }
    ensures { result ≡ eqb (word file.now at) HR.mark }
{
    Mark::try_from(word(file, at)) == Ok(Mark::Hours)
}

// Bytes in all of the rule's record that begins at a byte.
#[tactic(auto, unfolding(crate::specs::Kinds::size_at, crate::specs::Kinds::kind_at, crate::specs::Kinds::kind_among))]
fn size_at(file: &[u8], at: usize) -> usize
    requires { at + 2 ≤ length file.now }
    ensures { result ≡ size_at file.now at }
{
    if is_in_hours(file, at) { 10 } else { 12 }
}

// The rule of the record that begins at a byte; with hours, k is 60 times as much.
#[tactic(auto, using(crate::proofs::Records::size_bounds))]
pub fn decoded_rule(file: &[u8], at: usize) -> Rule
    requires { at + size_at file.now at ≤ length file.now }
    ensures { result ≡ decoded_rule file.now at }
{
    let k = if is_in_hours(file, at) {
        60 * i32::from(word(file, at + 8).cast_signed())
    } else {
        signed32(file, at + 8)
    };
    Rule {
        x: word(file, at + 2),
        y: word(file, at + 4),
        z: word(file, at + 6),
        k,
    }
}

// The byte where the record after a rule's begins.
#[tactic(auto, using(crate::proofs::Records::size_bounds))]
pub fn next_record(file: &[u8], at: usize) -> usize
    requires { at + size_at file.now at ≤ length file.now }
    ensures { result ≡ at + size_at file.now at }
{
    at + size_at(file, at)
}

// The latest time's record that begins at a byte, its mark and place right: its other checks in order. `seen` is true at a job's place where
// the job has a latest time already.
#[tactic(auto, using(crate::proofs::Latest::latests))]
fn latest_record(file: &[u8], jobs: usize, seen: &[bool], at: usize) -> Result<LatestTime, Fault>
    requires at_in_bounds { at ≤ length file.now }
    requires seen_len_bound { jobs ≤ length seen.now }
    ensures { said_at at result ≡ latest_record_reply jobs file.now (get_or seen.now (decoded_latest file.now at).job false) at }
{
    if file.len() - at < 8 {
        return Err(Fault::FileEnds);
    }
    let latest = decoded_latest(file, at);
    let job = usize::from(latest.job);
    if jobs <= job {
        return Err(Fault::JobNumber);
    }
    check_time(latest.minute)?;
    if seen[job] {
        return Err(Fault::SecondLatest);
    }
    Ok(latest)
}

// The checks of a rule in a file of a form: its numbers, and in a sent file its class.
fn check_fields(form: Form, jobs: usize, rule: Rule) -> Result<(), Fault>
    ensures { result ≡ fields_fault form jobs rule }
{
    match form {
        Form::Sent => check_rule(jobs, rule),
        Form::Stored => check_bounds(jobs, rule),
    }
}

// The record that begins at a byte behind the latest times, count rules already read: its checks in order.
#[tactic(auto, using(crate::proofs::Records::records))]
fn read_record(form: Form, file: &[u8], jobs: usize, count: usize, at: usize) -> Result<Rule, Fault>
    requires { at ≤ length file.now }
    ensures { said_at at result ≡ rule_reply form jobs file.now count at }
{
    if file.len() - at < 2 {
        return Err(Fault::FileEnds);
    }
    if !form.mark(word(file, at))?.is_rule() {
        return Err(Fault::RecordPlace);
    }
    if 1024 <= count {
        return Err(Fault::RuleCount);
    }
    if file.len() - at < size_at(file, at) {
        return Err(Fault::FileEnds);
    }
    let rule = decoded_rule(file, at);
    check_fields(form, jobs, rule)?;
    Ok(rule)
}

// The first record, its checks in order: the job count.
#[tactic(auto, using(crate::proofs::Records::heads))]
fn check_head(form: Form, file: &[u8]) -> Result<usize, Fault>
    ensures { said_at 0 result ≡ head_reply form file.now }
{
    if file.len() < 2 {
        return Err(Fault::FileEnds);
    }
    if form.mark(word(file, 0))? != Mark::Book {
        return Err(Fault::RecordPlace);
    }
    if file.len() < 4 {
        return Err(Fault::FileEnds);
    }
    let jobs = usize::from(word(file, 2));
    if jobs < 1 || 256 < jobs {
        return Err(Fault::JobCount);
    }
    Ok(jobs)
}

// The records of latest times, from byte 4 on: the byte behind them, or the first refusal.
#[tactic(auto, using(crate::proofs::Latest::checks))]
fn scan_latest(file: &[u8], jobs: usize) -> Result<usize, Refusal>
    requires file_len_bound { 4 ≤ length file.now }
    requires jobs_bound { jobs ≤ most_jobs }
    ensures said { byte_of result ≡ ended 4 (latest_from (most_jobs + 1) jobs file.now [] 4) }
    ensures inside { IfOk result (λ at. at ≤ length file.now) }
{
    let mut at = 4;
    let mut seen = [false; 256];
    while is_latest(file, at) {
        match latest_record(file, jobs, &seen, at) {
            Ok(latest) => seen[usize::from(latest.job)] = true,
            Err(fault) => return Err(Refusal { fault, place: at }),
        }
        at += 8;
    }
    Ok(at)
}

// The records of rules, from a byte to the end of the file: their number, or the first refusal.
#[tactic(auto, using(crate::proofs::Rules::scans))]
fn scan(form: Form, file: &[u8], jobs: usize, begin: usize) -> Result<Counts, Refusal>
    requires { begin ≤ length file.now }
    ensures { read_of result ≡ counted jobs (rules_from form (most_rules + 1) jobs file.now 0 begin) }
{
    let mut at = begin;
    let mut rules = 0;
    // No range gives these bytes: each record begins where the one before it ends, and they differ in length.
    while at < file.len() {
        // By `if let`, and not by `map_err` and `?`: what a closure is known to give does not reach the loop's invariant.
        if let Err(fault) = read_record(form, file, jobs, rules, at) {
            return Err(Refusal { fault, place: at });
        }
        at = next_record(file, at);
        rules += 1;
    }
    Ok(Counts { jobs, rules })
}

// A whole file of a form, checked, or its first refusal.
#[tactic(auto, using(crate::proofs::Walks::files))]
pub fn check_file(form: Form, file: &[u8]) -> Result<Checked, Refusal>
    ensures said { checked_reply result ≡ file_reply form file.now }
    ensures begin { IfOk result (λ checked. checked.begin ≡ rules_begin file.now) }
{
    let jobs = check_head(form, file)?;
    let begin = scan_latest(file, jobs)?;
    let counts = scan(form, file, jobs, begin)?;
    Ok(Checked { counts, begin })
}

// The byte where the record of a rule begins, the first one's byte given.
#[tactic(auto, using(crate::proofs::Walks::walks))]
fn begin(file: &[u8], first: usize, number: usize) -> usize
    requires listed { Listed Sent file.now }
    requires first_is { first ≡ rules_begin file.now }
    requires number_in_bounds { number < length (entries Sent file.now) }
    ensures { Begins Sent file.now number result }
{
    let mut at = first;
    for _ in 0..number {
        at = next_record(file, at);
    }
    at
}

// Where a rule's record stands in its file: its first byte, and its length in bytes.
#[derive(Clone, Copy)]
pub struct Stretch {
    pub at: usize,
    pub size: usize,
}

// The stretch of a rule's record, by the rule's number: of no bytes if the reader refuses the file or it holds no such rule.
#[tactic(auto, using(crate::proofs::Walks::places, crate::proofs::Records::size_bounds))]
pub fn stretch_of(file: &[u8], number: usize) -> Stretch
    ensures place { result ≡ place_of file.now number }
    ensures inside { result.at + result.size ≤ length file.now }
{
    match check_file(Form::Sent, file) {
        Ok(checked) if number < checked.counts.rules => {
            let at = begin(file, checked.begin, number);
            Stretch {
                at,
                size: size_at(file, at),
            }
        }
        _ => Stretch { at: 0, size: 0 },
    }
}

// The record of a rule, handed back as that stretch of the lent file: its bytes, and where they are. An address is a block and a byte in it.
pub fn record(file: &[u8], number: usize) -> &[u8]
    ensures bytes { result.now ≡ record_of file.now number }
    ensures block { result.ref_ptr.0 ≡ file.entry.ref_ptr.0 }
    ensures byte { result.ref_ptr.1 ≡ file.entry.ref_ptr.1 + (place_of file.now number).at }
{
    let place = stretch_of(file, number);
    &file[place.at..place.at + place.size]
}

// The latest time of each job, written into a list with a place for each.
fn write_latest(file: &[u8], latest: &mut [i32])
    requires listed { Listed Sent file.now }
    requires latest_len { length latest.old ≡ word file.now 2 }
    ensures { latest.new ≡ latest_of_file file.now }
{
    latest.fill(0);
    let mut at = 4;
    while is_latest(file, at) {
        let time = decoded_latest(file, at);
        latest[usize::from(time.job)] = time.minute;
        at += 8;
    }
}

// The rules, from the byte where the first one's record begins, written into a table with a place for each.
#[tactic(auto, using(crate::proofs::Storing::stored_none))]
fn write_rules(file: &[u8], begin: usize, rules: &mut [Rule])
    requires listed { Listed Sent file.now }
    requires begin_is { begin ≡ rules_begin file.now }
    requires rules_len { length rules.old ≡ length (entries Sent file.now) }
    ensures { rules.new ≡ rules_of_file Sent file.now }
{
    let mut at = begin;
    for rule in rules.iter_mut() {
        *rule = decoded_rule(file, at);
        at = next_record(file, at);
    }
}

// The reader: the job count and the rule count, with the rules in the lent table and the latest times in the lent list; or the refusal,
// with nothing written.
#[tactic(auto, using(crate::proofs::Walks::readings))]
pub fn read_book(file: &[u8], rules: &mut [Rule], latest: &mut [i32]) -> Result<Counts, Refusal>
    ensures said { read_of result ≡ read_reply file.now (length rules.old) (length latest.old) }
    ensures rules_after { rules.new ≡ read_rules file.now rules.old latest.old }
    ensures latest_after { latest.new ≡ read_latest file.now rules.old latest.old }
{
    let checked = check_file(Form::Sent, file)?;
    let counts = checked.counts;
    if rules.len() < counts.rules || latest.len() < counts.jobs {
        return Err(Fault::Length.into());
    }
    write_latest(file, &mut latest[..counts.jobs]);
    write_rules(file, checked.begin, &mut rules[..counts.rules]);
    Ok(counts)
}
