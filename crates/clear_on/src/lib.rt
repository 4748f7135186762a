// Clearing goes on where it ended with one kept bay e: another neighbour x of the junction is emptied beside it, by the first attempt that
// succeeds.
#![tactic(auto)]

ghost use Rattle.acting.specs.Acting.{Ready};
ghost use Rattle.attempts.specs.Asking.{KeptAsks};
ghost use Rattle.clear_on.specs.Going.{After, AfterAsks};
ghost use Rattle.clear_on.specs.Asking.{GoOnSays, ClearTwoAsks, ClearTwoSays};

use acting::Tally;
use attempts::{Lead, OneKept};
use docket::Bay;
use keeping::Two;

// The bays kept by what is lent the rest of the list, after so much was made.
pub fn after(made: Tally, rest: Option<(Bay, Bay, Tally)>) -> Option<(Bay, Bay, Tally)>
    requires { AfterAsks made rest }
    ensures { After made rest result }
{
    let (x, y, more) = rest?;
    Some((x, y, acting::add(made, more)))
}

// Clearing goes on around the junction with the one kept bay.
pub fn go_on(
    table: &[u64],
    one: OneKept,
    placement: &[u16],
    standing: &[u16],
    empty: &[u64],
    out: &mut [u64],
) -> Option<(Bay, Bay, Tally)>
    requires ready { Ready table.now placement.now standing.now empty.now }
    requires kept_asks { KeptAsks one placement.now standing.now }
    ensures { GoOnSays one
        table.now placement.now standing.now out.new result }
{
    let e = one.kept;
    let mut others = [0u64; words::WORDS];
    words::join_row(&mut others, table, one.lead.junction.0 as usize);
    words::remove(&mut others, one.behind.0 as usize);
    words::remove(&mut others, e.0 as usize);
    let (x, made) = either_way::either_way(table, &others, one, placement, standing, empty, out)?;
    Some((x, e, made))
}

// Clear, with the leader at the junction and the follower at b: once through the neighbours, and on from there with one kept bay. The placement
// is left as the first part leaves it.
pub fn clear_two(
    table: &[u64],
    lead: Lead,
    b: Bay,
    placement: &mut [u16],
    standing: &mut [u16],
    empty: &mut [u64],
    out: &mut [u64],
) -> Option<(Bay, Bay, Tally)>
    requires ready { Ready table.now placement.old standing.old empty.old }
    requires clear_two_asks { ClearTwoAsks lead b.0 placement.old standing.old }
    ensures { ClearTwoSays lead b.0
        table.now placement.old standing.old
        placement.new out.new result }
{
    let cleared = clear::clear(table, lead.junction, b, placement, standing, empty, out);
    match cleared {
        Two::Both(x, y, made) => Some((x, y, made)),
        Two::Single(kept, made) => {
            let one = OneKept {
                lead,
                behind: b,
                kept,
            };
            let from = acting::place_in(out, made.crossings);
            let rest = go_on(table, one, placement, standing, empty, &mut out[from..]);
            after(made, rest)
        }
        Two::Short => None,
    }
}
