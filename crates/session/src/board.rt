// A board, and what each command does to it.
ghost use Rattle.std.specs.Prelude.{◌≡◌, ◌≤◌, length};
ghost use Rattle.derivation.specs.Refusals.{lent};
ghost use Rattle.derivation.specs.Replies.{outcome_reply};
ghost use Rattle.derivation.specs.Calls.{initial_reply, initial_times};
ghost use Rattle.report.specs.Text.{Written};
ghost use Rattle.commands.specs.Answers.{answer_text};
ghost use Rattle.commands.specs.declared.reading.Command.TheVariants as Ask;
ghost use Rattle.session.specs.Turns.{no_steps, turn, line_turn};
ghost use Rattle.session.specs.Boards.{book_of, stands, Left};

use commands::reading::{Command, command_of};
use commands::writing::{Answer, write_answer, write_board, write_hexadecimal};
use derivation::{Fault, Refusal, Tally};
use maxatom::{Rule, Slip};
use planner::{first_violated, initial, is_tight, solve, step, step_back, write_plan};

// The rules and the latest times of a book, the time of each job, and the tally.
#[derive(Drop)]
pub struct Board<'a> {
    pub rules: &'a [Rule],
    pub latest: &'a [i32],
    pub times: &'a mut [i32],
    pub tally: Tally,
}

impl Board<'_> {
    #[tactic(auto, unfolding(crate::specs::Turns::turn, crate::specs::Turns::reply_text, commands::specs::Answers::answer_text), using(crate::proofs::Turns::state_is))]
    fn step(&mut self, number: u32) -> Answer
        ensures said { answer_text result ≡ (turn (book_of self.old) (stands self.old) (Ask.Step number)).text }
        ensures left { Left self.old (turn (book_of self.old) (stands self.old) (Ask.Step number)) self.new }
    {
        let n = self.latest.len();
        match step(
            n,
            self.rules,
            self.latest,
            self.times,
            &mut self.tally,
            number as usize,
        ) {
            Ok(slip) => Answer::Stepped(slip),
            Err(refusal) => Answer::Refused(refusal),
        }
    }

    #[tactic(auto, unfolding(crate::specs::Turns::turn, crate::specs::Turns::reply_text, commands::specs::Answers::answer_text), using(crate::proofs::Turns::state_is))]
    fn back(&mut self, slip: Slip) -> Answer
        ensures said { answer_text result ≡ (turn (book_of self.old) (stands self.old) (Ask.Back slip)).text }
        ensures left { Left self.old (turn (book_of self.old) (stands self.old) (Ask.Back slip)) self.new }
    {
        let n = self.latest.len();
        match step_back(
            n,
            self.rules,
            self.latest,
            self.times,
            &mut self.tally,
            slip,
        ) {
            Ok(()) => Answer::Back,
            Err(refusal) => Answer::Refused(refusal),
        }
    }

    #[tactic(auto, unfolding(crate::specs::Turns::turn, crate::specs::Turns::reply_text, crate::specs::Turns::kept_text, commands::specs::Answers::answer_text))]
    fn kept(&self) -> Answer
        ensures { answer_text result ≡ (turn (book_of self.now) (stands self.now) Ask.Kept).text }
    {
        let n = self.latest.len();
        match first_violated(n, self.rules, self.latest, self.times) {
            Ok(None) => Answer::Kept,
            Ok(Some(number)) => Answer::Broken(number as u64),
            Err(refusal) => Answer::Refused(refusal),
        }
    }

    #[tactic(auto, unfolding(crate::specs::Turns::turn, crate::specs::Turns::reply_text, crate::specs::Turns::tight_text, commands::specs::Answers::answer_text))]
    fn tight(&self, number: u32) -> Answer
        ensures { answer_text result ≡ (turn (book_of self.now) (stands self.now) (Ask.Tight number)).text }
    {
        let n = self.latest.len();
        match is_tight(n, self.rules, self.latest, self.times, number as usize) {
            Ok(true) => Answer::Yes,
            Ok(false) => Answer::No,
            Err(refusal) => Answer::Refused(refusal),
        }
    }

    fn rule(&self, number: u32) -> Answer
        ensures { answer_text result ≡ (turn (book_of self.now) (stands self.now) (Ask.Rule number)).text }
    {
        match self.rules.get(number as usize) {
            Some(rule) => Answer::Rule(u64::from(number), *rule),
            None => Answer::Refused(Fault::NoSuchRule.into()),
        }
    }

    // The bench run from a fresh board of its own.
    fn run(&self) -> Answer
        requires { length self.now.latest.now ≤ 256 }
        ensures { answer_text result ≡ (turn (book_of self.now) (stands self.now) Ask.Run).text }
    {
        let n = self.latest.len();
        let mut times = [0; 256];
        match solve(n, self.rules, self.latest, &mut times[..n]) {
            Ok(solved) => Answer::Run(solved),
            Err(refusal) => Answer::Refused(refusal),
        }
    }

    #[tactic(auto, unfolding(crate::specs::Turns::turn, crate::specs::Turns::reply_text, commands::specs::Answers::answer_text))]
    fn fresh(&mut self) -> Answer
        ensures said { answer_text result ≡ (turn (book_of self.old) (stands self.old) Ask.Fresh).text }
        ensures left { Left self.old (turn (book_of self.old) (stands self.old) Ask.Fresh) self.new }
    {
        match begin(self.latest, self.times, &mut self.tally) {
            Ok(()) => Answer::Fresh,
            Err(refusal) => Answer::Refused(refusal),
        }
    }

    #[tactic(auto, unfolding(crate::specs::Turns::turn))]
    fn show(&self, text: &mut [u8]) -> usize
        ensures written { Written text.old 0 (turn (book_of self.now) (stands self.now) Ask.Show).text text.new result }
        ensures upper_bound { result ≤ 20608 }
    {
        write_board(self.times, self.tally, text)
    }

    // The bytes of the plan writer for the board, in hexadecimal; or its refusal.
    #[tactic(auto, unfolding(crate::specs::Turns::turn, crate::specs::Turns::reply_text, commands::specs::Answers::answer_text))]
    fn plan(&self, text: &mut [u8]) -> usize
        ensures written { Written text.old 0 (turn (book_of self.now) (stands self.now) Ask.Plan).text text.new result }
        ensures upper_bound { result ≤ 20608 }
    {
        let mut bytes = [0; 2048];
        match write_plan(self.times, &mut bytes, 0) {
            Ok(()) => write_hexadecimal(&bytes[..8 * self.times.len()], text),
            Err(refusal) => write_answer(Answer::Refused(refusal), text),
        }
    }

    // Does what a command asks for, writes the answer, and returns where it ends.
    #[tactic(auto, unfolding(crate::specs::Turns::turn))]
    fn follow(&mut self, command: Command, text: &mut [u8]) -> usize
        requires { length self.old.latest.now ≤ 256 }
        ensures written { Written text.old 0 (turn (book_of self.old) (stands self.old) command).text text.new result }
        ensures left { Left self.old (turn (book_of self.old) (stands self.old) command) self.new }
        ensures upper_bound { result ≤ 20608 }
    {
        match command {
            Command::Show => self.show(text),
            Command::Step(number) => write_answer(self.step(number), text),
            Command::Back(slip) => write_answer(self.back(slip), text),
            Command::Kept => write_answer(self.kept(), text),
            Command::Tight(number) => write_answer(self.tight(number), text),
            Command::Rule(number) => write_answer(self.rule(number), text),
            Command::Run => write_answer(self.run(), text),
            Command::Fresh => write_answer(self.fresh(), text),
            Command::Plan => self.plan(text),
        }
    }

    // Does what a line asks for, writes the answer, and returns where it ends. A line that is no command changes nothing.
    #[tactic(auto, unfolding(crate::specs::Turns::turn_of))]
    pub fn obey(&mut self, line: &[u8], text: &mut [u8]) -> usize
        requires { length self.old.latest.now ≤ 256 }
        ensures written { Written text.old 0 (line_turn (book_of self.old) (stands self.old) line.now).text text.new result }
        ensures left { Left self.old (line_turn (book_of self.old) (stands self.old) line.now) self.new }
        ensures upper_bound { result ≤ 20608 }
    {
        match command_of(line) {
            Some(command) => self.follow(command, text),
            None => write_answer(Answer::What, text),
        }
    }
}

// A fresh board and a tally of nothing, or the refusal with nothing changed.
#[tactic(auto, unfolding(derivation::specs::Refusals::lent))]
fn begin(latest: &[i32], times: &mut [i32], tally: &mut Tally) -> Result<(), Refusal>
    ensures said { outcome_reply result ≡ initial_reply (length latest.now) latest.now times.old }
    ensures times_after { times.new ≡ initial_times (length latest.now) latest.now times.old }
    ensures tally_after { tally.new ≡ lent (initial_reply (length latest.now) latest.now times.old) tally.old no_steps }
{
    initial(latest.len(), latest, times)?;
    *tally = Tally {
        steps: 0,
        minutes: 0,
    };
    Ok(())
}
