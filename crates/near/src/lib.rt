// The junctions near a carrier, tried one by one, nearest first and ties lowest: the first of them whose trial succeeds is that of its swap. Most swaps find
// theirs within a few rails.
#![tactic(auto)]

ghost use Rattle.std.specs.Prelude.{◌≡◌, true, ◌≤◌, length};
ghost use Rattle.words.specs.Sets.{words};
ghost use Rattle.acting.specs.Acting.{Ready};
ghost use Rattle.trial.specs.Trying.{TrialAsks};
ghost use Rattle.near.specs.Seeking.{SurelyFails, TryJunctionSays, NearAsks, NearSays};

use acting::Tally;
use docket::{Bay, Carrier};
use trial::Trial;

// So many rings are near, the carrier's own bay being the first. Farther on it pays to go ahead of the trials.
const NEAR: usize = 8;

// So few bays are hardly any that are empty, and then so many rings are near. Yards of up to so many bays are the smallest.
const FEW: u64 = 4;

const BESIDE: usize = 2;

const SMALL: usize = 24;

// What the near rings have: a trial that succeeds, with its counts; none in so many rings, though there may be one farther on; or none, and no bay is farther on.
#[derive(Clone, Copy)]
pub enum Nearby {
    Found(Tally),
    Farther(usize),
    Nowhere,
}

// Whether the trial, which is not at the carrier's own bay, is bound to fail: its junction is blocked.
fn surely_fails(
    table: &[u64],
    trial: Trial,
    placement: &[u16],
    standing: &[u16],
    empty: &[u64],
) -> bool
    requires ready { Ready table.now placement.now standing.now empty.now }
    requires trial_asks { TrialAsks trial placement.now standing.now }
    ensures { result ≡ true → SurelyFails trial table.now placement.now standing.now }
{
    let v = trial.junction;
    let first = trial.carrier.0 as usize;
    let second = trial.neighbour.0 as usize;
    let u = Bay(placement[first]);
    let w = Bay(placement[second]);
    if u.0 == v.0 {
        return false;
    }
    outlook::is_blocked(table, standing.len(), v, u, w, empty)
}

// The trial, if its bay is a junction.
fn try_junction(
    table: &[u64],
    trial: Trial,
    placement: &[u16],
    standing: &[u16],
    empty: &[u64],
    out: &mut [u64],
) -> Option<Tally>
    requires ready { Ready table.now placement.now standing.now empty.now }
    requires trial_asks { TrialAsks trial placement.now standing.now }
    ensures { TryJunctionSays trial
        table.now placement.now standing.now out.new result }
{
    let n = standing.len();
    if acting::is_junction(table, n, trial.junction) {
        if surely_fails(table, trial, placement, standing, empty) {
            return None;
        }
        return trial::try_at(table, trial, placement, standing, empty, out);
    }
    None
}

// How many rings are looked at. Where hardly a bay is empty most trials fail, and it pays sooner to go ahead of them, but in the smallest yards.
fn reach(n: usize, empty: &[u64]) -> usize
    requires { length empty.now ≡ words }
    ensures { result ≤ n }
{
    if n < NEAR {
        return n;
    }
    if SMALL < n {
        if words::count(empty) < FEW {
            return BESIDE;
        }
    }
    NEAR
}

// The trial at the first junction among the near ones where it succeeds; the list is left as that trial leaves it. Where a ring is empty, so is every
// ring after it.
pub fn seek_near(
    table: &[u64],
    r: Carrier,
    s: Carrier,
    placement: &[u16],
    standing: &[u16],
    empty: &[u64],
    out: &mut [u64],
) -> Nearby
    requires ready { Ready table.now placement.now standing.now empty.now }
    requires near_asks { NearAsks r.0 s.0 placement.now }
    ensures { NearSays r.0 s.0 table.now placement.now standing.now out.new result }
{
    let carrier = r.0 as usize;
    let u = placement[carrier] as usize;
    let last = reach(standing.len(), empty);
    let mut seen = [0u64; words::WORDS];
    let mut ring = [0u64; words::WORDS];
    words::alone(&mut seen, u);
    words::alone(&mut ring, u);
    let mut found = Nearby::Farther(last);
    'nearest: for _d in 0..last {
        let mut v = words::next_from(&ring, 0);
        if words::SPAN <= v {
            found = Nearby::Nowhere;
            break 'nearest;
        }
        while v < words::SPAN {
            let here = Trial {
                carrier: r,
                neighbour: s,
                junction: Bay(v as u16),
            };
            let tried = try_junction(table, here, placement, standing, empty, out);
            if let Some(m) = tried {
                found = Nearby::Found(m);
                break 'nearest;
            }
            v = words::next_from(&ring, v + 1);
        }
        rings::widen(table, &mut seen, &mut ring);
    }
    found
}
