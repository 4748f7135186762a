// One kept bay e of a junction, and what an attempt to empty another neighbour x beside it needs: the second way to do so, and copies, on
// which it is played.
#![tactic(auto)]

ghost use Rattle.std.specs.Prelude.{◌≡◌, ◌≤◌, length, take};
ghost use Rattle.acting.specs.Acting.{Ready};
ghost use Rattle.attempts.specs.Asking.{AroundSays, AttemptAsks};

use acting::Tally;
use aside::Aside;
use bring::Couple;
use docket::Bay;

// A leader with its follower, and the junction to which it leads.
#[derive(Clone, Copy)]
pub struct Lead {
    pub couple: Couple,
    pub junction: Bay,
}

// Where clearing goes on: the leader is at the junction and the follower at the bay behind it; of the other neighbours one is kept.
#[derive(Clone, Copy)]
pub struct OneKept {
    pub lead: Lead,
    pub behind: Bay,
    pub kept: Bay,
}

// The second way, on a placement that is used up: leader and follower go forth to the kept bay and the junction, what is vacated is as in the
// first way with the bay behind and the kept bay in each other's place, and the two go back.
pub fn go_round(
    table: &[u64],
    one: OneKept,
    x: Bay,
    placement: &mut [u16],
    standing: &mut [u16],
    empty: &mut [u64],
    out: &mut [u64],
) -> Option<Tally>
    requires ready { Ready table.now placement.old standing.old empty.old }
    requires attempt_asks { AttemptAsks one x.0 placement.old standing.old }
    ensures { AroundSays one x.0
        table.now placement.old standing.old out.old
        placement.new standing.new empty.new out.new result }
{
    let couple = one.lead.couple;
    let held = one.kept;
    let forth = bring::enter(couple, held, placement, standing, empty, out);
    let junction = one.lead.junction;
    let emptied = one.behind;
    let aside = Aside {
        junction,
        held,
        emptied,
    };
    let from = acting::place_in(out, forth.crossings);
    let rest = &mut out[from..];
    let more = aside::vacate_both(table, aside, x, placement, standing, empty, rest)?;
    let made = acting::add(forth, more);
    let leader = one.lead.couple.follower;
    let follower = one.lead.couple.leader;
    let turned = Couple { leader, follower };
    let end = acting::place_in(out, made.crossings);
    let back = bring::enter(turned, emptied, placement, standing, empty, &mut out[end..]);
    Some(acting::add(made, back))
}

// The list begins with the other one.
pub fn copy(to: &mut [u16], from: &[u16])
    requires { length from.now ≤ length to.old }
    ensures { take (length from.now) to.new ≡ from.now }
{
    let mut i = 0;
    while i < from.len() {
        to[i] = from[i];
        i += 1;
    }
}
