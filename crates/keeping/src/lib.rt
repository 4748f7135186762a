// Bays around a junction are kept empty: the first of some others that can be vacated, and a second one beside a bay that is kept.
#![tactic(auto)]

ghost use Rattle.acting.specs.Acting.{Ready};
ghost use Rattle.keeping.specs.Keeping.{After, AfterAsks, KeepAsks, KeepSays, KeepSecondAsks, KeepSecondSays};

use acting::Tally;
use docket::Bay;

// The two bays that are kept, or the only one, with what was made for them; or none is.
#[derive(Clone, Copy)]
pub enum Two {
    Both(Bay, Bay, Tally),
    Single(Bay, Tally),
    Short,
}

// The bay that is kept first, and from which bay on a second one is looked for.
#[derive(Clone, Copy)]
pub struct First {
    pub kept: Bay,
    pub from: usize,
}

// The bays kept by what is lent the rest of the list, after so much was made.
pub fn after(made: Tally, rest: Two) -> Two
    requires { AfterAsks made rest }
    ensures { After made rest result }
{
    match rest {
        Two::Both(x, y, more) => Two::Both(x, y, acting::add(made, more)),
        Two::Single(x, more) => Two::Single(x, acting::add(made, more)),
        Two::Short => Two::Short,
    }
}

// The first of the others from a bay on that can be vacated is vacated.
pub fn keep_one(
    table: &[u64],
    others: &[u64],
    held: &[u64],
    from: usize,
    placement: &mut [u16],
    standing: &mut [u16],
    empty: &mut [u64],
    out: &mut [u64],
) -> Option<(Bay, Tally)>
    requires ready { Ready table.now placement.old standing.old empty.old }
    requires keep_asks { KeepAsks table.now others.now held.now from standing.old }
    ensures { KeepSays table.now others.now held.now from
        placement.old standing.old out.old
        placement.new standing.new empty.new out.new result }
{
    let mut x = words::next_from(others, from);
    while x < words::SPAN {
        let bay = Bay(x as u16);
        let vacated = acting::make_room(table, held, bay, placement, standing, empty, out);
        if let Some(done) = vacated {
            let made = Tally {
                crossings: done.crossings,
                parked: done.parked,
            };
            return Some((bay, made));
        }
        x = words::next_from(others, x + 1);
    }
    None
}

// With one bay kept, one of the others is kept too, if one can be vacated.
pub fn keep_second(
    table: &[u64],
    others: &[u64],
    held: &mut [u64],
    first: First,
    placement: &mut [u16],
    standing: &mut [u16],
    empty: &mut [u64],
    out: &mut [u64],
) -> Two
    requires ready { Ready table.now placement.old standing.old empty.old }
    requires keep_second_asks { KeepSecondAsks others.now held.old first placement.old standing.old }
    ensures { KeepSecondSays table.now others.now held.old first
        placement.old standing.old out.old
        placement.new standing.new empty.new out.new result }
{
    let x = first.kept;
    words::join(held, x.0 as usize);
    let second = keep_one(
        table, others, held, first.from, placement, standing, empty, out,
    );
    let Some((y, m)) = second else {
        return Two::Single(x, acting::NOTHING);
    };
    Two::Both(x, y, m)
}
