// Sessions at the boards of the example books. The file of a session's lines has the book's letter; `what` has lines that are no commands,
// and commands with the greatest numbers, an empty line and a last line without a line feed. `d`, `hours` and `refused` are sessions on
// files that are refused: one has an impossible rule, one a rule in hours, whose mark the reader does not know, and one ends inside a
// record.

#![tactic(auto)]

use example_books::{A, B, C, D, E, F, G, H, I, J, L, P, Q};
use session::session;
use std::{fs, io};

const SESSIONS: [(&str, &[u8]); 16] = [
    ("a.lines", A),
    ("b.lines", B),
    ("c.lines", C),
    ("d.lines", D),
    ("e.lines", E),
    ("f.lines", F),
    ("g.lines", G),
    ("h.lines", H),
    ("i.lines", I),
    ("j.lines", J),
    ("l.lines", L),
    ("p.lines", P),
    ("q.lines", Q),
    (
        "hours.lines",
        b"BK\x02\x00HR\x00\x00\x00\x00\x01\x00\xff\xff",
    ),
    ("what.lines", B),
    ("refused.lines", b"BK\x01\x00RU"),
];

fn main(rt: HostRuntime) -> io::Result<()> {
    for (name, book) in SESSIONS {
        println!(rt; "{name}")?;
        session(book, &mut fs::open(&rt, name)?, &mut io::writer(&rt))?;
    }
    Ok(())
}
