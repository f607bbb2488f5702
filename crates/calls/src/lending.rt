// A table of rules and a list of latest times, each with a place more than a book may have, of which some places are lent to a call. The
// number of places stands beside them, since it is a case's own: it may be more than there are.
ghost use Rattle.std.specs.Prelude.{◌≡◌, ◌++◌, min, length, drop};
ghost use Rattle.maxatom.specs.declared.Rule.{Rule};
ghost use Rattle.derivation.specs.Replies.{read_of};
ghost use Rattle.bookfile.specs.Replies.{read_reply, read_rules, read_latest};
ghost use Rattle.calls.specs.Part.{lent_of, first_of};

use planner::{Counts, Refusal, Rule};

// The first `count` places, or all where the table has fewer.
pub fn lent(table: &[Rule; 1025], count: usize) -> &[Rule]
    ensures { result.now ≡ lent_of count table.now }
{
    &table[..count.min(1025)]
}

// The first `count` latest times, or all where the list has fewer.
pub fn first(latest: &[i32; 257], count: usize) -> &[i32]
    ensures { result.now ≡ first_of count latest.now }
{
    &latest[..count.min(257)]
}

// The reader, on the first `places` places of the table and the first `minutes` of the list.
pub fn read_book(
    file: &[u8],
    table: &mut [Rule; 1025],
    places: usize,
    latest: &mut [i32; 257],
    minutes: usize,
) -> Result<Counts, Refusal>
    ensures said { read_of result ≡ read_reply file.now (length (lent_of places table.old)) (length (first_of minutes latest.old)) }
    ensures rules_after { table.new ≡ read_rules file.now (lent_of places table.old) (first_of minutes latest.old)
        ++ drop (min places 1025) table.old }
    ensures latest_after { latest.new ≡ read_latest file.now (lent_of places table.old) (first_of minutes latest.old)
        ++ drop (min minutes 257) latest.old }
{
    planner::read_book(
        file,
        &mut table[..places.min(1025)],
        &mut latest[..minutes.min(257)],
    )
}
