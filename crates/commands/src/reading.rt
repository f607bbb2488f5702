// Commands, a line each. A line is read as what it must look like: a command is taken exactly where the line is its text.
ghost use Rattle.std.specs.Prelude.{◌≡◌, ◌+◌, ◌≤◌, length, take, drop, Some};
ghost use Rattle.commands.specs.Reading.{blank, first_word, behind, number, below_zero, time, slip, numbered, command_of};
ghost use Rattle.commands.specs.Commands.{Reads};

use maxatom::Slip;

// What a line asks for. A rule is named by its number in the file.
#[derive(Clone, Copy, PartialEq, Eq)]
pub enum Command {
    Show,
    Step(u32),
    Back(Slip),
    Kept,
    Tight(u32),
    Rule(u32),
    Run,
    Fresh,
    Plan,
}

// The place of the first blank, or the end of a text without one.
#[tactic(auto, unfolding(crate::specs::Reading::blank))]
fn blank(text: &[u8]) -> usize
    ensures value { result ≡ blank text.now }
    ensures upper_bound { result ≤ length text.now }
{
    for (i, b) in text.iter().enumerate() {
        if *b == b' ' {
            return i;
        }
    }
    text.len()
}

// What stands before the first blank.
#[tactic(auto, unfolding(crate::specs::Reading::first_word))]
fn first_word(text: &[u8]) -> &[u8]
    ensures { result.now ≡ first_word text.now }
{
    &text[..blank(text)]
}

// What stands behind the first blank; nothing in a text without one.
#[tactic(auto, unfolding(crate::specs::Reading::behind))]
fn behind(text: &[u8]) -> &[u8]
    ensures { result.now ≡ behind text.now }
{
    let at = blank(text);
    if at < text.len() {
        &text[at + 1..]
    } else {
        &text[at..]
    }
}

// The number whose decimal is all of the text, if it is at most `most`.
fn number(text: &[u8], most: u32) -> Option<u32>
    ensures { result ≡ number most text.now }
{
    if text.is_empty() {
        return None;
    }
    if text[0] == b'0' && 1 < text.len() {
        return None;
    }
    let mut value = 0;
    for b in text {
        if *b < b'0' || b'9' < *b {
            return None;
        }
        value = 10 * value + u64::from(*b - b'0');
        if u64::from(most) < value {
            return None;
        }
    }
    Some(value as u32)
}

// The negative number of this size; there is none of size 0.
#[tactic(auto, unfolding(crate::specs::Reading::below_zero))]
fn below_zero(size: u32) -> Option<i32>
    requires { size ≤ 2147483648 }
    ensures { result ≡ below_zero (Some size) }
{
    if size == 0 {
        return None;
    }
    Some(-1 - (size - 1) as i32)
}

// The time whose decimal, with a minus sign where it is negative, is all of the text.
fn time(text: &[u8]) -> Option<i32>
    ensures { result ≡ time text.now }
{
    if text.is_empty() {
        return None;
    }
    if text[0] == b'-' {
        return below_zero(number(&text[1..], 2147483648)?);
    }
    Some(number(text, 2147483647)? as i32)
}

// A slip: its job and two times.
#[tactic(auto, unfolding(crate::specs::Reading::slip, crate::specs::Reading::slip_of))]
fn slip(text: &[u8]) -> Option<Slip>
    ensures { result ≡ slip text.now }
{
    let times = behind(text);
    let job = number(first_word(text), 65535)?;
    let before = time(first_word(times))?;
    let after = time(behind(times))?;
    Some(Slip {
        job: job as u16,
        before,
        after,
    })
}

// A command that has numbers, by its word and the text of these.
#[tactic(auto, unfolding(crate::specs::Reading::numbered))]
fn numbered(word: &[u8], numbers: &[u8]) -> Option<Command>
    ensures { result ≡ numbered word.now numbers.now }
{
    if word == b"STEP".as_slice() {
        return Some(Command::Step(number(numbers, u32::MAX)?));
    }
    if word == b"BACK".as_slice() {
        return Some(Command::Back(slip(numbers)?));
    }
    if word == b"TIGHT".as_slice() {
        return Some(Command::Tight(number(numbers, u32::MAX)?));
    }
    if word == b"RULE".as_slice() {
        return Some(Command::Rule(number(numbers, u32::MAX)?));
    }
    None
}

// The command whose text is the line, without its line feed; none where it is no command's.
#[tactic(auto, using(crate::proofs::Lines::reads), unfolding(crate::specs::Reading::command_of))]
pub fn command_of(line: &[u8]) -> Option<Command>
    ensures said { result ≡ command_of line.now }
    ensures meant { Reads line.now result }
{
    if line == b"SHOW".as_slice() {
        return Some(Command::Show);
    }
    if line == b"KEPT".as_slice() {
        return Some(Command::Kept);
    }
    if line == b"RUN".as_slice() {
        return Some(Command::Run);
    }
    if line == b"FRESH".as_slice() {
        return Some(Command::Fresh);
    }
    if line == b"PLAN".as_slice() {
        return Some(Command::Plan);
    }
    numbered(first_word(line), behind(line))
}
