// The three calls of the serial link: begin, piece and end.
#![tactic(auto)]

ghost use Rattle.paper.specs.Map.{read_map};
ghost use Rattle.link.specs.Link.{FedSays, OverSays, BeginSays, PieceSays, EndSays};

use docket::Refusal;
use gridmap::Grid;
use link::{Link, Turn};

// The scenario is due, on this map. A map that breaks its layout leaves the link as it was.
pub fn begin(link: Link, map: &[u8]) -> Turn
    ensures { BeginSays (read_map map.now) link result }
{
    let mut cells = [0u16; 4096];
    let found = gridmap::read(map, &mut cells);
    match found {
        Ok(grid) => {
            let start = [0u16; paper::CARRIERS];
            let goal = [0u16; paper::CARRIERS];
            Turn {
                said: Some(Ok(0)),
                link: Link {
                    start: start,
                    goal: goal,
                    cells: cells,
                    line: link::keep(scenario::start()),
                    phase: 1,
                    height: grid.height,
                    width: grid.width,
                },
            }
        }
        Err(line) => Turn {
            said: Some(Err(Refusal::BadMap(line))),
            link: link,
        },
    }
}

// The bytes of a piece are read on. Once the layout is broken no carrier is stored any more.
fn fed(link: Link, bytes: &[u8]) -> Link
    ensures { FedSays link bytes.now result }
{
    let mut starts = link.start;
    let mut goals = link.goal;
    let cells = link.cells;
    let grid = Grid {
        height: link.height,
        width: link.width,
        bays: 0,
    };
    let r = scenario::feed(
        link::reading(link.line),
        bytes,
        grid,
        &cells,
        &mut starts,
        &mut goals,
    );
    let k = link::keep(r);
    let mut next = link;
    next.line = k;
    if r.failed {
        return next;
    }
    next.start = starts;
    next.goal = goals;
    next
}

// A piece: 17, then 18, then it is read and more is due.
pub fn piece(link: Link, bytes: &[u8]) -> Turn
    ensures { PieceSays link bytes.now result }
{
    if link.phase == 1 {
        if bytes.len() <= link::PIECE {
            return Turn {
                said: None,
                link: fed(link, bytes),
            };
        }
        return Turn {
            said: Some(Err(Refusal::LongPiece)),
            link: link,
        };
    }
    Turn {
        said: Some(Err(Refusal::Ended)),
        link: link,
    }
}

// The scenario is over: what the whole file gives.
fn over(link: Link) -> Turn
    ensures { OverSays link result }
{
    let mut starts = link.start;
    let mut goals = link.goal;
    let cells = link.cells;
    let grid = Grid {
        height: link.height,
        width: link.width,
        bays: 0,
    };
    let r = scenario::finish(
        link::reading(link.line),
        grid,
        &cells,
        &mut starts,
        &mut goals,
    );
    let found = scenario::answer(r);
    let mut next = link;
    next.phase = 2;
    match found {
        Ok(carriers) => {
            next.start = starts;
            next.goal = goals;
            Turn {
                said: Some(Ok(carriers as u64)),
                link: next,
            }
        }
        Err(line) => Turn {
            said: Some(Err(Refusal::BadScenario(line))),
            link: next,
        },
    }
}

// The end: 17, or what the whole file gives.
pub fn end(link: Link) -> Turn
    ensures { EndSays link result }
{
    if link.phase == 1 {
        return over(link);
    }
    Turn {
        said: Some(Err(Refusal::Ended)),
        link: link,
    }
}
