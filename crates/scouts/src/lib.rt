// The scouts of a swap: whether there is hope for a trial at a far junction. There are two of them, one for each of the two carriers that may lead, and the bays
// that one of them could not enter are noted: a path that passes such a bay leads nowhere.
#![tactic(auto)]

ghost use Rattle.std.specs.Prelude.{◌≡◌, true};
ghost use Rattle.acting.specs.Acting.{Ready};
ghost use Rattle.scouts.specs.Scouts.{NoneYet, PassesAsks, PassesSays, PathAsks, PathSays, NotedSays, SendAsks, SendSays, ForeseeAsks, ForeseeSays};

use attempts::Lead;
use docket::Bay;
use scout::{Scout, Sight};
use trial::Trial;

// The numbers that the rooms of both scouts hold: ours, and then theirs.
pub const ROOM: usize = 2 * scout::ROOM;

// One scout for each of the two that may lead, and the bays that one of them could not enter. `begun` tells whether a trial was made.
#[derive(Clone, Copy)]
pub struct Scouts {
    pub ours: Scout,
    pub theirs: Scout,
    pub stuck: [u64; words::WORDS],
    pub begun: bool,
}

// What the scouts make of a trial, and where they are then.
#[derive(Clone, Copy)]
pub struct Outlook {
    pub scouts: Scouts,
    pub hopeless: bool,
}

// Who is to lead to which junction, and so many rails from the path's start the leader stands at first.
#[derive(Clone, Copy)]
pub struct Errand {
    pub lead: Lead,
    pub rails: usize,
}

// Nobody has set out: no path has so many rails.
pub fn nobody() -> Scouts
    ensures { NoneYet result }
{
    let idle = Scout {
        empty: [0u64; words::WORDS],
        at: Bay(0),
        rails: words::SPAN,
    };
    Scouts {
        ours: idle,
        theirs: idle,
        stuck: [0u64; words::WORDS],
        begun: false,
    }
}

// Whether the path passes one of the bays.
fn passes(path: &[u16], bays: &[u64]) -> bool
    requires { PassesAsks path.now bays.now }
    ensures { result ≡ true → PassesSays path.now bays.now }
{
    for bay in path {
        if words::is_in(bays, *bay as usize) {
            return true;
        }
    }
    false
}

// The scout, if it stands on the path; otherwise a new one, which sets out at the bay `from`.
fn on_the_path(
    path: &[u16],
    placement: &[u16],
    standing: &[u16],
    empty: &[u64],
    from: Bay,
    rails: usize,
    scout: Scout,
    room: &mut [u16],
) -> Scout
    requires { PathAsks path.now placement.now standing.now empty.now from rails room.old }
    ensures { PathSays path.now placement.now standing.now empty.now from rails
        scout room.old result room.new }
{
    let at = scout.at;
    let come = scout.rails;
    if come < path.len() {
        if path[come] == at.0 {
            return scout;
        }
    }
    scout::set_out(placement, standing, empty, from, rails, room)
}

// The bays that cannot be entered, and with them the path's bay at this place, if it has one.
fn noted(stuck: [u64; words::WORDS], path: &[u16], place: usize) -> [u64; words::WORDS]
    requires { PassesAsks path.now stuck }
    ensures { NotedSays path.now stuck place result }
{
    let mut bays = stuck;
    if place < path.len() {
        words::join(&mut bays, path[place] as usize);
    }
    bays
}

// A scout is sent along the path to the junction: the one that is given, or another from the bay so many rails from the path's start. What it
// enters is counted from there too.
fn send(
    table: &[u64],
    path: &[u16],
    errand: Errand,
    placement: &[u16],
    standing: &[u16],
    empty: &[u64],
    scout: Scout,
    room: &mut [u16],
) -> Sight
    requires ready { Ready table.now placement.now standing.now empty.now }
    requires send_asks { SendAsks path.now errand.lead errand.rails table.now placement.now standing.now scout room.old }
    ensures { SendSays path.now errand.lead errand.rails table.now placement.now standing.now
        scout room.old result room.new }
{
    let lead = errand.lead;
    let rails = errand.rails;
    let from = Bay(path[rails]);
    let there = on_the_path(path, placement, standing, empty, from, rails, scout, room);
    let ahead = there.rails + 1;
    let k = placement.len();
    let n = standing.len();
    let sight = scout::look(table, &path[ahead..], lead, k, n, there, room);
    let come = sight.scout;
    Sight {
        scout: come,
        entered: ahead + sight.entered,
        fits: sight.fits,
    }
}

// What a scout makes of the trial. Who leads is told by the path.
fn foresee(
    table: &[u64],
    path: &[u16],
    trial: Trial,
    placement: &[u16],
    standing: &[u16],
    empty: &[u64],
    scouts: Scouts,
    room: &mut [u16],
) -> Outlook
    requires ready { Ready table.now placement.now standing.now empty.now }
    requires foresee_asks { ForeseeAsks path.now trial table.now placement.now standing.now scouts room.old }
    ensures { ForeseeSays trial table.now placement.now standing.now result room.new }
{
    let neighbour = trial.neighbour.0 as usize;
    let w = Bay(placement[neighbour]);
    let ours = scouts.ours;
    let theirs = scouts.theirs;
    let stuck = scouts.stuck;
    if trial::second_is(path, w) {
        let errand = Errand {
            lead: trial::neighbour_leads(trial),
            rails: 1,
        };
        let sight = send(
            table,
            path,
            errand,
            placement,
            standing,
            empty,
            theirs,
            &mut room[scout::ROOM..],
        );
        let come = sight.scout;
        return Outlook {
            scouts: Scouts {
                ours: ours,
                theirs: come,
                stuck: noted(stuck, path, sight.entered),
                begun: true,
            },
            hopeless: !sight.fits,
        };
    }
    let errand = Errand {
        lead: trial::carrier_leads(trial),
        rails: 0,
    };
    let sight = send(
        table,
        path,
        errand,
        placement,
        standing,
        empty,
        ours,
        &mut room[..scout::ROOM],
    );
    let come = sight.scout;
    Outlook {
        scouts: Scouts {
            ours: come,
            theirs: theirs,
            stuck: noted(stuck, path, sight.entered),
            begun: true,
        },
        hopeless: !sight.fits,
    }
}

// Whether there is hope for a trial: not where its path passes a bay that cannot be entered; for the first one always; else a scout tells.
pub fn hope(
    table: &[u64],
    path: &[u16],
    trial: Trial,
    placement: &[u16],
    standing: &[u16],
    empty: &[u64],
    scouts: Scouts,
    room: &mut [u16],
) -> Outlook
    requires ready { Ready table.now placement.now standing.now empty.now }
    requires foresee_asks { ForeseeAsks path.now trial table.now placement.now standing.now scouts room.old }
    ensures { ForeseeSays trial table.now placement.now standing.now result room.new }
{
    let stuck = scouts.stuck;
    if passes(path, &stuck) {
        return Outlook {
            scouts: scouts,
            hopeless: true,
        };
    }
    if scouts.begun {
        return foresee(table, path, trial, placement, standing, empty, scouts, room);
    }
    let mut next = scouts;
    next.begun = true;
    Outlook {
        scouts: next,
        hopeless: false,
    }
}
