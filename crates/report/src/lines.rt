// The lines of the report. That rules and times are those of an accepted book are clauses and no type, since both are slices that callers
// lend.
ghost use Rattle.std.specs.Prelude.{◌++◌, ◌+◌, ◌<◌, ◌≤◌, ◌^◌, length, ◌≡◌};
ghost use Rattle.maxatom.specs.Book.{most_jobs, most_rules, Each, total};
ghost use Rattle.maxatom.specs.Accepted.{InBook};
ghost use Rattle.derivation.specs.Faults.{number_of};
ghost use Rattle.report.specs.Text.{Written};
ghost use Rattle.report.specs.Inner.{Writes};
ghost use Rattle.report.specs.Report.{book_line, job_line, job_lines, tight_fields, tight_line, steps_line, none_line, refused_line, plan_text};

use crate::text::Text;
use derivation::Refusal;
use maxatom::{Rule, Slip};
use solver::is_equality;

impl Text<'_> {
    fn book_line(&mut self, jobs: u64, rules: u64, k: u64)
        requires { self.old.end < 2 ^ 37 }
        ensures written { Writes self.old (book_line jobs rules k) self.new }
        ensures upper_bound { self.new.end ≤ self.old.end + 80 }
    {
        self.word(b"BOOK");
        self.field(jobs);
        self.field(rules);
        self.field(k);
        self.word(b"\n");
    }

    fn job_line(&mut self, job: u64, time: i32)
        requires { self.old.end < 2 ^ 37 }
        ensures written { Writes self.old (job_line job time) self.new }
        ensures upper_bound { self.new.end ≤ self.old.end + 80 }
    {
        self.word(b"JOB");
        self.field(job);
        self.signed(time);
        self.word(b"\n");
    }

    pub fn job_lines(&mut self, times: &[i32])
        requires { (self.old.end < 2 ^ 30) × (length times.now ≤ most_jobs) }
        ensures written { Writes self.old (job_lines 0 times.now) self.new }
        ensures upper_bound { self.new.end ≤ self.old.end + 20480 }
    {
        for (i, t) in times.iter().enumerate() {
            self.job_line(i as u64, *t);
        }
    }

    fn steps_line(&mut self, steps: u64)
        requires { self.old.end < 2 ^ 37 }
        ensures written { Writes self.old (steps_line steps) self.new }
        ensures upper_bound { self.new.end ≤ self.old.end + 80 }
    {
        self.word(b"STEPS");
        self.field(steps);
        self.word(b"\n");
    }

    fn none_line(&mut self, slip: Slip)
        requires { self.old.end < 2 ^ 37 }
        ensures written { Writes self.old (none_line slip) self.new }
        ensures upper_bound { self.new.end ≤ self.old.end + 80 }
    {
        self.word(b"NONE");
        self.field(u64::from(slip.job));
        self.signed(slip.before);
        self.signed(slip.after);
        self.word(b"\n");
    }

    pub fn refused_line(&mut self, refusal: Refusal)
        requires { self.old.end < 2 ^ 37 }
        ensures written { Writes self.old (refused_line (number_of refusal.fault) refusal.place) self.new }
        ensures upper_bound { self.new.end ≤ self.old.end + 80 }
    {
        self.word(b"REFUSED");
        self.field(u64::from(u8::from(refusal.fault)));
        self.field(refusal.place as u64);
        self.word(b"\n");
    }

    fn tight_fields(&mut self, rules: &[Rule], times: &[i32])
        requires bounds { (length times.now ≤ most_jobs) × (length rules.now ≤ most_rules) }
        requires rules_in { Each (InBook (length times.now)) rules.now }
        requires end_bound { self.old.end < 2 ^ 30 }
        ensures written { Writes self.old (tight_fields 0 rules.now times.now) self.new }
        ensures upper_bound { self.new.end ≤ self.old.end + 24576 }
    {
        for (i, r) in rules.iter().enumerate() {
            if is_equality(*r, times) {
                self.field(i as u64);
            }
        }
    }

    fn tight_line(&mut self, rules: &[Rule], times: &[i32])
        requires bounds { (length times.now ≤ most_jobs) × (length rules.now ≤ most_rules) }
        requires rules_in { Each (InBook (length times.now)) rules.now }
        requires end_bound { self.old.end < 2 ^ 29 }
        ensures written { Writes self.old (tight_line rules.now times.now) self.new }
        ensures upper_bound { self.new.end ≤ self.old.end + 24600 }
    {
        self.word(b"TIGHT");
        self.tight_fields(rules, times);
        self.word(b"\n");
    }

    // The report of a plan of a book whose K is k.
    pub fn plan(&mut self, rules: &[Rule], k: u32, times: &[i32], steps: u64)
        requires bounds { (length times.now ≤ most_jobs) × (length rules.now ≤ most_rules) }
        requires rules_in { Each (InBook (length times.now)) rules.now }
        requires k_value { k ≡ total rules.now }
        requires end_bound { self.old.end < 2 ^ 28 }
        ensures written { Writes self.old (plan_text rules.now times.now steps) self.new }
        ensures upper_bound { self.new.end ≤ self.old.end + 65536 }
    {
        self.book_line(times.len() as u64, rules.len() as u64, u64::from(k));
        self.job_lines(times);
        self.tight_line(rules, times);
        self.steps_line(steps);
    }

    // The report of none, for a book of n jobs and `count` rules whose K is k, with the slip of the last step.
    pub fn none(&mut self, n: usize, count: usize, k: u32, slip: Slip, steps: u64)
        requires end_bound { self.old.end < 2 ^ 28 }
        ensures written { Writes self.old (book_line n count k ++ (none_line slip ++ steps_line steps)) self.new }
        ensures upper_bound { self.new.end ≤ self.old.end + 65536 }
    {
        self.book_line(n as u64, count as u64, u64::from(k));
        self.none_line(slip);
        self.steps_line(steps);
    }
}

// The line of a refusal, into a lent buffer: where it ends.
pub fn refused_line(refusal: Refusal, out: &mut [u8]) -> usize
    ensures written { Written out.old 0 (refused_line (number_of refusal.fault) refusal.place) out.new result }
    ensures upper_bound { result ≤ 80 }
{
    let mut text = Text::new(out);
    text.refused_line(refusal);
    text.end
}
