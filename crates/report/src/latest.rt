// The report of a book's file.
ghost use Rattle.std.specs.Prelude.{◌≡◌, ◌+◌, ◌^◌, ◌<◌, ◌≤◌, length};
ghost use Rattle.maxatom.specs.Book.{book};
ghost use Rattle.maxatom.specs.Accepted.{Accepted};
ghost use Rattle.report.specs.Text.{Written};
ghost use Rattle.report.specs.Inner.{Writes};
ghost use Rattle.report.specs.Latest.{table_text, report_of};

use crate::text::Text;
use bookfile::reading::read_book;
use derivation::Solved;
use maxatom::Rule;
use solver::solve;

impl Text<'_> {
    // The report of an accepted book, whose jobs have these latest times; the times lent have a place for each job.
    fn table(&mut self, rules: &[Rule], latest: &[i32], times: &mut [i32])
        requires accepted { Accepted (book (length latest.now) latest.now rules.now) }
        requires room { length times.old ≡ length latest.now }
        requires end_bound { self.old.end < 2 ^ 28 }
        ensures written { Writes self.old (table_text (book (length latest.now) latest.now rules.now) times.old) self.new }
        ensures upper_bound { self.new.end ≤ self.old.end + 65536 }
    {
        let mut k = 0;
        for r in rules {
            k += r.k.unsigned_abs();
        }
        match solve(rules, latest, k, times) {
            Solved::Plan(steps) => self.plan(rules, k, times, steps),
            Solved::None(steps, slip) => self.none(latest.len(), rules.len(), k, slip, steps),
        }
    }

    // The report of a file.
    #[tactic(auto, using(crate::proofs::Reports::room, crate::proofs::Reports::take_length))]
    fn file(&mut self, file: &[u8])
        requires end_bound { self.old.end < 2 ^ 28 }
        ensures written { Writes self.old (report_of file.now) self.new }
        ensures upper_bound { self.new.end ≤ self.old.end + 65536 }
    {
        // There is no heap: the rules, the latest times and the times are the first places of arrays, as many as the reader counts.
        let mut rules = [Rule {
            x: 0,
            y: 0,
            z: 0,
            k: 0,
        }; 1024];
        let mut latest = [0; 256];
        let mut times = [0; 256];
        match read_book(file, &mut rules, &mut latest) {
            Ok(counts) => self.table(
                &rules[..counts.rules],
                &latest[..counts.jobs],
                &mut times[..counts.jobs],
            ),
            Err(refusal) => self.refused_line(refusal),
        }
    }
}

// The text that latest prints of a file, into a lent buffer: where it ends.
pub fn report(file: &[u8], out: &mut [u8]) -> usize
    ensures written { Written out.old 0 (report_of file.now) out.new result }
    ensures upper_bound { result ≤ 65536 }
{
    let mut text = Text::new(out);
    text.file(file);
    text.end
}
