// A session at a board: commands from a reader, a line each, and their answers to a writer.

#![tactic(auto)]

mod board;

ghost use Rattle.std.specs.Prelude.{◌≤◌, length, OnOk};
ghost use Rattle.std.specs.Io.KnownBytes.{Appends};
ghost use Rattle.bookfile.specs.declared.mark.Form.TheVariants.{Sent};
ghost use Rattle.bookfile.specs.Reading.{book_of_file};
ghost use Rattle.bookfile.specs.Replies.{file_reply};
ghost use Rattle.session.specs.Boards.{book_of, stands, Left};
ghost use Rattle.session.specs.Sessions.{ended, Served, Held};

use board::Board;
use commands::writing::{Answer, write_answer};
use derivation::Tally;
use maxatom::Rule;
use planner::read_book;
use std::io;
use std::io::{Read, Write};

// Answers a line that has ended. An empty one is passed over.
fn answer<W: Write>(
    board: &mut Board,
    line: &[u8],
    text: &mut [u8; 20608],
    output: &mut W,
) -> io::Result<()>
    requires { length board.old.latest.now ≤ 256 }
    ensures left { OnOk result (Left board.old (ended (book_of board.old) (stands board.old) line.now) board.new) }
    ensures said { OnOk result (Appends (W.contents output.old) (W.contents output.new)
        (ended (book_of board.old) (stands board.old) line.now).text) }
{
    if line.is_empty() {
        return Ok(());
    }
    let end = board.obey(line, text);
    output.write_all(&text[..end])?;
    output.flush()
}

// Answers each line before it reads the next one.
fn serve<R: Read, W: Write>(board: &mut Board, input: &mut R, output: &mut W) -> io::Result<()>
    requires { length board.old.latest.now ≤ 256 }
    ensures served { OnOk result (Served (book_of board.old) (stands board.old)
        (R.remaining input.old) (R.remaining input.new) (W.contents output.old) (W.contents output.new)) }
{
    let mut line = [0; 256];
    let mut length = 0;
    let mut text = [0; 20608];
    // The range bounds the reads, so that the loop ends whatever the input does.
    for _ in 0..u64::MAX {
        let mut byte = [0];
        if input.read(&mut byte)? == 0 {
            return answer(board, &line[..length], &mut text, output);
        }
        if byte[0] == b'\n' {
            answer(board, &line[..length], &mut text, output)?;
            length = 0;
            continue;
        }
        if length == 256 {
            continue;
        }
        line[length] = byte[0];
        length += 1;
    }
    answer(board, &line[..length], &mut text, output)
}

// A session on the book of a file, which begins with a fresh board; a refused file is said in one line.
#[tactic(auto, using(report::proofs::Reports::room, report::proofs::Reports::take_length))]
pub fn session<R: Read, W: Write>(file: &[u8], input: &mut R, output: &mut W) -> io::Result<()>
    ensures held { OnOk result (Held (file_reply Sent file.now) (book_of_file Sent file.now)
        (R.remaining input.old) (R.remaining input.new) (W.contents output.old) (W.contents output.new)) }
{
    // Nothing is allocated here: the rules, the latest times and the times are the first places of arrays, as many as the reader counts.
    let mut rules = [Rule {
        x: 0,
        y: 0,
        z: 0,
        k: 0,
    }; 1024];
    let mut latest = [0; 256];
    let mut times = [0; 256];
    match read_book(file, &mut rules, &mut latest) {
        Ok(counts) => {
            let latest = &latest[..counts.jobs];
            let times = &mut times[..counts.jobs];
            times.copy_from_slice(latest);
            let mut board = Board {
                rules: &rules[..counts.rules],
                latest,
                times,
                tally: Tally {
                    steps: 0,
                    minutes: 0,
                },
            };
            serve(&mut board, input, output)
        }
        Err(refusal) => {
            let mut text = [0; 160];
            let end = write_answer(Answer::Refused(refusal), &mut text);
            output.write_all(&text[..end])
        }
    }
}
