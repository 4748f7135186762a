// A trial at a junction: bring, clear, exchange, undo. It is played on copies, so that nobody has moved if it fails. It is lent the rest of the
// list: its crossings go there as they are made, and undo reads them back. Where that is too short they are only counted.
#![tactic(auto)]

ghost use Rattle.std.specs.Prelude.{◌≡◌, min, max, eqb, ltb, length, get_or};
ghost use Rattle.paper.specs.Basics.{◌and◌};
ghost use Rattle.acting.specs.Acting.{Ready};
ghost use Rattle.trial.specs.Trying.{neighbour_leads, carrier_leads, LedAsks, SetUpSays, LedSays, TrialAsks, TrialOnAsks, TrialOnSays, TrialSays};

use acting::Tally;
use attempts::Lead;
use bring::Couple;
use docket::{Bay, Carrier};

// The swap of a carrier with its neighbour, tried at a junction.
#[derive(Clone, Copy)]
pub struct Trial {
    pub carrier: Carrier,
    pub neighbour: Carrier,
    pub junction: Bay,
}

// Bring and clear.
fn set_up(
    table: &[u64],
    path: &[u16],
    lead: Lead,
    placement: &mut [u16],
    standing: &mut [u16],
    empty: &mut [u64],
    out: &mut [u64],
) -> Option<(Bay, Bay, Tally)>
    requires ready { Ready table.now placement.old standing.old empty.old }
    requires led_asks { LedAsks lead path.now placement.old standing.old }
    ensures { SetUpSays lead path.now
        table.now placement.old standing.old placement.new out.new result }
{
    let made = bring::bring(table, path, lead.couple, placement, standing, empty, out)?;
    let follower = lead.couple.follower.0 as usize;
    let b = Bay(placement[follower]);
    let from = acting::place_in(out, made.crossings);
    let cleared = clear_on::clear_two(table, lead, b, placement, standing, empty, &mut out[from..]);
    clear_on::after(made, cleared)
}

// A trial, where leader and follower are known, on a placement that is used up.
fn attempt_on(
    table: &[u64],
    path: &[u16],
    lead: Lead,
    placement: &mut [u16],
    standing: &mut [u16],
    empty: &mut [u64],
    out: &mut [u64],
) -> Option<Tally>
    requires ready { Ready table.now placement.old standing.old empty.old }
    requires led_asks { LedAsks lead path.now placement.old standing.old }
    ensures { LedSays lead path.now
        table.now placement.old standing.old out.new result }
{
    let (x, y, c) = set_up(table, path, lead, placement, standing, empty, out)?;
    let l = lead.couple.leader;
    let m = lead.couple.follower;
    let follower = m.0 as usize;
    let behind = placement[follower];
    let b = Bay(behind);
    let made = c.crossings;
    let parked = c.parked;
    let lower = Bay(x.0.min(y.0));
    let higher = Bay(x.0.max(y.0));
    let d = exchange::exchange(out, made, l, m, lead.junction, b, lower, higher);
    undo::undo(out, 0, made, d, l, m);
    let crossings = d + made;
    Some(Tally { crossings, parked })
}

// The same on copies.
fn attempt(
    table: &[u64],
    path: &[u16],
    lead: Lead,
    placement: &[u16],
    standing: &[u16],
    empty: &[u64],
    out: &mut [u64],
) -> Option<Tally>
    requires ready { Ready table.now placement.now standing.now empty.now }
    requires led_asks { LedAsks lead path.now placement.now standing.now }
    ensures { LedSays lead path.now
        table.now placement.now standing.now out.new result }
{
    let mut bays = [0u16; words::SPAN];
    let mut carriers = [0u16; words::SPAN];
    let mut unused = [0u64; words::WORDS];
    attempts::copy(&mut bays, placement);
    attempts::copy(&mut carriers, standing);
    words::keep(&mut unused, 0, empty);
    let k = placement.len();
    let n = standing.len();
    attempt_on(
        table,
        path,
        lead,
        &mut bays[..k],
        &mut carriers[..n],
        &mut unused,
        out,
    )
}

// Whether the path's second bay is w.
pub fn second_is(path: &[u16], w: Bay) -> bool
    ensures { result ≡ ltb 1 (length path.now) and eqb (get_or path.now 1 0) w.0 }
{
    if path.len() < 2 {
        return false;
    }
    path[1] == w.0
}

// The neighbour leads and the carrier follows.
pub fn neighbour_leads(trial: Trial) -> Lead
    ensures { result ≡ neighbour_leads trial }
{
    let leader = trial.neighbour;
    let follower = trial.carrier;
    let junction = trial.junction;
    let couple = Couple { leader, follower };
    Lead { couple, junction }
}

// The carrier leads and the neighbour follows.
pub fn carrier_leads(trial: Trial) -> Lead
    ensures { result ≡ carrier_leads trial }
{
    let leader = trial.carrier;
    let follower = trial.neighbour;
    let junction = trial.junction;
    let couple = Couple { leader, follower };
    Lead { couple, junction }
}

// A trial at the junction, where the path from the carrier's bay leads: where its second bay is the neighbour's, the neighbour leads; otherwise
// the carrier does.
pub fn try_on(
    table: &[u64],
    path: &[u16],
    trial: Trial,
    placement: &[u16],
    standing: &[u16],
    empty: &[u64],
    out: &mut [u64],
) -> Option<Tally>
    requires ready { Ready table.now placement.now standing.now empty.now }
    requires trial_on_asks { TrialOnAsks trial path.now placement.now standing.now }
    ensures { TrialOnSays trial path.now
        table.now placement.now standing.now out.new result }
{
    let neighbour = trial.neighbour.0 as usize;
    let w = Bay(placement[neighbour]);
    if second_is(path, w) {
        let lead = neighbour_leads(trial);
        return attempt(table, &path[2..], lead, placement, standing, empty, out);
    }
    let lead = carrier_leads(trial);
    attempt(table, &path[1..], lead, placement, standing, empty, out)
}

// A trial at a junction that is not the carrier's own bay: the path is found.
fn try_along(
    table: &[u64],
    trial: Trial,
    placement: &[u16],
    standing: &[u16],
    empty: &[u64],
    out: &mut [u64],
) -> Option<Tally>
    requires ready { Ready table.now placement.now standing.now empty.now }
    requires trial_asks { TrialAsks trial placement.now standing.now }
    ensures { TrialSays trial
        table.now placement.now standing.now out.new result }
{
    let carrier = trial.carrier.0 as usize;
    let u = Bay(placement[carrier]);
    let n = standing.len();
    let none = [0u64; words::WORDS];
    let mut path = [0u16; words::SPAN];
    let k = ways::path_between(table, n, &none, u, trial.junction, &mut path)?;
    try_on(table, &path[..k], trial, placement, standing, empty, out)
}

// A trial. From the carrier's own bay, the nearest junction, the path is that bay alone; to a junction beside it, those two bays.
pub fn try_at(
    table: &[u64],
    trial: Trial,
    placement: &[u16],
    standing: &[u16],
    empty: &[u64],
    out: &mut [u64],
) -> Option<Tally>
    requires ready { Ready table.now placement.now standing.now empty.now }
    requires trial_asks { TrialAsks trial placement.now standing.now }
    ensures { TrialSays trial
        table.now placement.now standing.now out.new result }
{
    let v = trial.junction;
    let carrier = trial.carrier.0 as usize;
    let u = placement[carrier];
    if u == v.0 {
        let path = [u];
        return try_on(table, &path, trial, placement, standing, empty, out);
    }
    if words::is_in(table, u as usize * words::SPAN + v.0 as usize) {
        let path = [u, v.0];
        return try_on(table, &path, trial, placement, standing, empty, out);
    }
    try_along(table, trial, placement, standing, empty, out)
}
