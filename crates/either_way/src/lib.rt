// The attempts to empty another neighbour of a junction beside the kept one: with each the first way, and if that never works the second. Each is
// played on copies and logged from the log's start, so that one that fails is forgotten.
#![tactic(auto)]

ghost use Rattle.acting.specs.Acting.{Ready};
ghost use Rattle.attempts.specs.Asking.{AttemptAsks};
ghost use Rattle.either_way.specs.Either.{AttemptSays, OthersAsk, FirstKeptSays, EitherSays};

use acting::Tally;
use aside::Aside;
use attempts::OneKept;
use docket::Bay;

// The two ways to empty another neighbour.
#[derive(Clone, Copy)]
enum Way {
    First,
    Second,
}

// An attempt with x, this way, on copies.
fn attempt(
    table: &[u64],
    way: Way,
    one: OneKept,
    x: Bay,
    placement: &[u16],
    standing: &[u16],
    empty: &[u64],
    log: &mut [u64],
) -> Option<Tally>
    requires ready { Ready table.now placement.now standing.now empty.now }
    requires attempt_asks { AttemptAsks one x.0 placement.now standing.now }
    ensures { AttemptSays way one x.0
        table.now placement.now standing.now log.new result }
{
    let mut bays = [0u16; words::SPAN];
    let mut carriers = [0u16; words::SPAN];
    let mut unused = [0u64; words::WORDS];
    attempts::copy(&mut bays, placement);
    attempts::copy(&mut carriers, standing);
    words::keep(&mut unused, 0, empty);
    let k = placement.len();
    let n = standing.len();
    let used = &mut bays[..k];
    let stood = &mut carriers[..n];
    match way {
        Way::First => {
            let aside = Aside {
                junction: one.lead.junction,
                held: one.behind,
                emptied: one.kept,
            };
            aside::vacate_both(table, aside, x, used, stood, &mut unused, log)
        }
        Way::Second => attempts::go_round(table, one, x, used, stood, &mut unused, log),
    }
}

// The first of the others whose attempt succeeds; the log is left as that attempt leaves it.
fn first_kept(
    table: &[u64],
    way: Way,
    others: &[u64],
    one: OneKept,
    placement: &[u16],
    standing: &[u16],
    empty: &[u64],
    log: &mut [u64],
) -> Option<(Bay, Tally)>
    requires ready { Ready table.now placement.now standing.now empty.now }
    requires others_ask { OthersAsk others.now one placement.now standing.now }
    ensures { FirstKeptSays way others.now one
        table.now placement.now standing.now log.new result }
{
    let mut x = words::next_from(others, 0);
    while x < words::SPAN {
        let bay = Bay(x as u16);
        let tried = attempt(table, way, one, bay, placement, standing, empty, log);
        if let Some(done) = tried {
            return Some((bay, done));
        }
        x = words::next_from(others, x + 1);
    }
    None
}

// The first way for each of the others; if that never works, the second for each.
pub fn either_way(
    table: &[u64],
    others: &[u64],
    one: OneKept,
    placement: &[u16],
    standing: &[u16],
    empty: &[u64],
    log: &mut [u64],
) -> Option<(Bay, Tally)>
    requires ready { Ready table.now placement.now standing.now empty.now }
    requires others_ask { OthersAsk others.now one placement.now standing.now }
    ensures { EitherSays others.now one
        table.now placement.now standing.now log.new result }
{
    let first = first_kept(
        table,
        Way::First,
        others,
        one,
        placement,
        standing,
        empty,
        log,
    );
    if let Some((x, c)) = first {
        return Some((x, c));
    }
    first_kept(
        table,
        Way::Second,
        others,
        one,
        placement,
        standing,
        empty,
        log,
    )
}
