// The text of each answer, into a lent buffer.
ghost use Rattle.std.specs.Prelude.{◌≡◌, [], ◌∷◌, ◌++◌, ◌+◌, ◌*◌, ◌/◌, ◌<◌, ◌≤◌, ◌^◌, length, take, drop};
ghost use Rattle.maxatom.specs.Book.{most_jobs};
ghost use lib.Chars.{codes};
ghost use Rattle.report.specs.Text.{Written, field};
ghost use Rattle.report.specs.Inner.{Writes};
ghost use Rattle.commands.specs.Commands.{slip_fields};
ghost use Rattle.commands.specs.Answers.{rule_fields, answer_text, board_text, hex_digit, hexadecimal, hexadecimal_line, most_bytes};

use derivation::{Refusal, Solved, Tally};
use maxatom::{Rule, Slip};
use report::text::Text;

// What `board` answers; a board and the bytes of a plan have functions of their own, since they are lent.
#[derive(Clone, Copy, PartialEq, Eq)]
pub enum Answer {
    // A step was taken.
    Stepped(Slip),
    // A step was taken back.
    Back,
    Refused(Refusal),
    // No rule is broken.
    Kept,
    // The number of the first broken rule.
    Broken(u64),
    // The rule is tight.
    Yes,
    No,
    // A rule's number, and the rule.
    Rule(u64, Rule),
    // What the bench run answers.
    Run(Solved),
    // The board and the tally are as at the start.
    Fresh,
    // The line is no command.
    What,
}

// A line of a word and a number.
fn number_line(text: &mut Text, word: &[u8], n: u64)
    requires { (text.old.end < 2 ^ 37) × (length word.now ≤ 8) }
    ensures written { Writes text.old (word.now ++ (field n ++ (10 ∷ []))) text.new }
    ensures upper_bound { text.new.end ≤ text.old.end + 128 }
{
    text.word(word);
    text.field(n);
    text.word(b"\n");
}

fn slip_fields(text: &mut Text, slip: Slip)
    requires { text.old.end < 2 ^ 37 }
    ensures written { Writes text.old (slip_fields slip) text.new }
    ensures upper_bound { text.new.end ≤ text.old.end + 72 }
{
    text.field(u64::from(slip.job));
    text.signed(slip.before);
    text.signed(slip.after);
}

fn stepped_line(text: &mut Text, slip: Slip)
    requires { text.old.end < 2 ^ 36 }
    ensures written { Writes text.old (codes "STEPPED" ++ (slip_fields slip ++ (10 ∷ []))) text.new }
    ensures upper_bound { text.new.end ≤ text.old.end + 128 }
{
    text.word(b"STEPPED");
    slip_fields(text, slip);
    text.word(b"\n");
}

fn none_line(text: &mut Text, steps: u64, slip: Slip)
    requires { text.old.end < 2 ^ 36 }
    ensures written { Writes text.old (codes "NONE" ++ (slip_fields slip ++ (field steps ++ (10 ∷ [])))) text.new }
    ensures upper_bound { text.new.end ≤ text.old.end + 128 }
{
    text.word(b"NONE");
    slip_fields(text, slip);
    text.field(steps);
    text.word(b"\n");
}

fn rule_line(text: &mut Text, number: u64, r: Rule)
    requires { text.old.end < 2 ^ 36 }
    ensures written { Writes text.old (codes "RULE" ++ (field number ++ (rule_fields r ++ (10 ∷ [])))) text.new }
    ensures upper_bound { text.new.end ≤ text.old.end + 160 }
{
    text.word(b"RULE");
    text.field(number);
    text.field(u64::from(r.x));
    text.field(u64::from(r.y));
    text.signed(r.k);
    text.field(u64::from(r.z));
    text.word(b"\n");
}

// An answer's line.
#[tactic(auto, unfolding(crate::specs::Answers::answer_text))]
fn answer_line(text: &mut Text, answer: Answer)
    requires { text.old.end < 2 ^ 36 }
    ensures written { Writes text.old (answer_text answer) text.new }
    ensures upper_bound { text.new.end ≤ text.old.end + 160 }
{
    match answer {
        Answer::Stepped(slip) => stepped_line(text, slip),
        Answer::Back => text.word(b"BACK\n"),
        Answer::Refused(refusal) => text.refused_line(refusal),
        Answer::Kept => text.word(b"KEPT\n"),
        Answer::Broken(rule) => number_line(text, b"BROKEN", rule),
        Answer::Yes => text.word(b"YES\n"),
        Answer::No => text.word(b"NO\n"),
        Answer::Rule(number, rule) => rule_line(text, number, rule),
        Answer::Run(Solved::Plan(steps)) => number_line(text, b"PLAN", steps),
        Answer::Run(Solved::None(steps, slip)) => none_line(text, steps, slip),
        Answer::Fresh => text.word(b"FRESH\n"),
        Answer::What => text.word(b"WHAT\n"),
    }
}

// Writes an answer, and returns where its text ends.
pub fn write_answer(answer: Answer, out: &mut [u8]) -> usize
    ensures written { Written out.old 0 (answer_text answer) out.new result }
    ensures upper_bound { result ≤ 160 }
{
    let mut text = Text::new(out);
    answer_line(&mut text, answer);
    text.end
}

// The first 256 jobs' lines: a board has no more.
fn board_lines(text: &mut Text, times: &[i32], tally: Tally)
    requires { text.old.end < 2 ^ 29 }
    ensures written { Writes text.old (board_text times.now tally) text.new }
    ensures upper_bound { text.new.end ≤ text.old.end + 20608 }
{
    text.job_lines(&times[..times.len().min(256)]);
    text.word(b"TALLY");
    text.field(tally.steps);
    text.field(tally.minutes);
    text.word(b"\n");
}

// Writes a board and its tally, and returns where their text ends.
pub fn write_board(times: &[i32], tally: Tally, out: &mut [u8]) -> usize
    ensures written { Written out.old 0 (board_text times.now tally) out.new result }
    ensures upper_bound { result ≤ 20608 }
{
    let mut text = Text::new(out);
    board_lines(&mut text, times, tally);
    text.end
}

#[tactic(auto, unfolding(crate::specs::Answers::hex_digit))]
fn hex_digit(n: u8) -> u8
    requires { n < 16 }
    ensures { result ≡ hex_digit n }
{
    if n < 10 { b'0' + n } else { b'A' - 10 + n }
}

fn hexadecimal(text: &mut Text, bytes: &[u8])
    requires { (text.old.end < 2 ^ 36) × (length bytes.now ≤ most_bytes) }
    ensures written { Writes text.old (hexadecimal bytes.now) text.new }
    ensures upper_bound { text.new.end ≤ text.old.end + 2 * most_bytes }
{
    for b in bytes {
        text.word(&[hex_digit(*b / 16), hex_digit(*b % 16)]);
    }
}

fn hexadecimal_line(text: &mut Text, bytes: &[u8])
    requires { text.old.end < 2 ^ 36 }
    ensures written { Writes text.old (hexadecimal_line bytes.now) text.new }
    ensures upper_bound { text.new.end ≤ text.old.end + 2 * most_bytes + 8 }
{
    hexadecimal(text, &bytes[..bytes.len().min(2048)]);
    text.word(b"\n");
}

// Writes bytes as a line of hexadecimal, and returns where it ends.
pub fn write_hexadecimal(bytes: &[u8], out: &mut [u8]) -> usize
    ensures written { Written out.old 0 (hexadecimal_line bytes.now) out.new result }
    ensures upper_bound { result ≤ 2 * most_bytes + 8 }
{
    let mut text = Text::new(out);
    hexadecimal_line(&mut text, bytes);
    text.end
}
