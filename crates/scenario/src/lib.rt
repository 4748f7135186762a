// The scenario file byte by byte, and whole: starts and goals, or the first bad line. The carriers read so far are no part of the
// state: it has their count and the last one, which the reader of the file stores when the count has grown.
#![tactic(auto)]

ghost use Rattle.std.specs.Prelude.{◌≡◌, true, false, ◌<◌};
ghost use Rattle.paper.specs.Bytes.{carrier_of};
ghost use Rattle.fields.specs.ReadAs.{past_of};
ghost use Rattle.scenario.specs.Under.{bay_by, Sound, taken_as, carrier_is, due_of, Broken, Closes, Steps, On, Released, Marked, Finishes, answer_of, answer_by, FeedsOn, EndsOn, Feeds, Ends, Ended, Reads};

use fields::{FieldSeen, FieldsPast, TextSeen};
use gridmap::Grid;

// The scenario under way: whether it broke its layout, whether the version is due, whether the line has begun, whether a CR is held
// back, how many carriers were read, the last one's start and goal, and what is known of the line.
#[derive(Clone, Copy)]
pub struct Reading {
    pub failed: bool,
    pub version: bool,
    pub begun: bool,
    pub held: bool,
    pub count: u16,
    pub start: u16,
    pub goal: u16,
    pub text: TextSeen,
    pub past: FieldsPast,
    pub field: FieldSeen,
}

// What a state stands for: a caller may hand in any.
fn taken(s: Reading) -> Reading
    ensures { result ≡ taken_as s }
{
    let n = carrier_lists::counted(s.version, s.count);
    let mut r = s;
    r.count = n;
    r
}

// The carrier, once its line has ended.
fn carrier_of(p: FieldsPast, grid: Grid, cells: &[u16]) -> Option<(u16, u16)>
    ensures { carrier_is result ≡ carrier_of grid.width grid.height (bay_by cells.now grid) (past_of p) }
{
    if p.index == 9 && p.well {
        let start = gridmap::bay_in(grid, cells, p.sx, p.sy)?;
        let goal = gridmap::bay_in(grid, cells, p.gx, p.gy)?;
        return Some((start, goal));
    }
    None
}

// A line is due: the version, or the next carrier's.
fn due(version: bool, count: u16, start: u16, goal: u16) -> Reading
    ensures { result ≡ due_of version count start goal }
{
    Reading {
        failed: false,
        version: version,
        begun: false,
        held: false,
        count: count,
        start: start,
        goal: goal,
        text: TextSeen {
            place: 0,
            agrees: true,
        },
        past: FieldsPast {
            index: 0,
            well: true,
            sx: 0,
            sy: 0,
            gx: 0,
            gy: 0,
        },
        field: FieldSeen {
            place: 0,
            number: 0,
            digits: true,
            point: false,
            plain: true,
            figure: false,
        },
    }
}

// Before the first byte the version is due.
pub fn start() -> Reading
    ensures { result ≡ due_of true 0 0 0 }
{
    due(true, 0, 0, 0)
}

// The line under way breaks the layout.
fn broken(s: Reading) -> Reading
    ensures { Broken s result }
{
    let mut r = s;
    r.failed = true;
    r
}

// The line under way ends.
fn closed(s: Reading, grid: Grid, cells: &[u16]) -> Reading
    ensures { Sound s → Closes cells.now grid s result }
{
    if s.version {
        if fields::is_version(s.text) {
            return due(false, 0, 0, 0);
        }
        return broken(s);
    }
    let count = s.count;
    if count < carrier_lists::MOST {
        let past = fields::field_past(s.past, s.field, grid.width as u32, grid.height as u32);
        let found = carrier_of(past, grid, cells);
        let Some((start, goal)) = found else {
            return broken(s);
        };
        return due(false, count + 1, start, goal);
    }
    broken(s)
}

// A byte inside a line.
fn on_byte(s: Reading, b: u8, grid: Grid) -> Reading
    ensures { On grid s b result }
{
    let mut r = s;
    if s.version {
        let t = fields::text_seen(s.text, b);
        r.text = t;
        return r;
    }
    if b == 9 {
        let p = fields::field_past(s.past, s.field, grid.width as u32, grid.height as u32);
        r.past = p;
        let f = FieldSeen {
            place: 0,
            number: 0,
            digits: true,
            point: false,
            plain: true,
            figure: false,
        };
        r.field = f;
        return r;
    }
    let f = fields::seen(s.field, b);
    r.field = f;
    r
}

// A CR that was held back belongs to the line.
fn released(s: Reading, grid: Grid) -> Reading
    ensures { Released grid s result }
{
    if s.held { on_byte(s, 13, grid) } else { s }
}

// The line has begun, and a CR is held back or not.
fn marked(s: Reading, hold: bool) -> Reading
    ensures { Marked s hold result }
{
    let mut r = s;
    r.begun = true;
    r.held = hold;
    r
}

// The file ends: so does the line under way, if it has begun.
fn finished(s: Reading, grid: Grid, cells: &[u16]) -> Reading
    ensures { Sound s → Finishes cells.now grid s result }
{
    if s.failed {
        return s;
    }
    if s.begun {
        return closed(released(s, grid), grid, cells);
    }
    s
}

// What was read, once the file has ended.
pub fn answer(s: Reading) -> Result<u16, u64>
    ensures { answer_of result ≡ answer_by s }
{
    if s.version {
        return Err(1);
    }
    if s.failed {
        return Err((s.count as u64) + 2);
    }
    Ok(s.count)
}

// One byte of the scenario.
fn step(s: Reading, b: u8, grid: Grid, cells: &[u16]) -> Reading
    ensures { Sound s → Steps cells.now grid s b result }
{
    if s.failed {
        return s;
    }
    if b == 10 {
        return closed(s, grid, cells);
    }
    let u = released(s, grid);
    if b == 13 {
        return marked(u, true);
    }
    marked(on_byte(u, b, grid), false)
}

// Bytes of the scenario, from a state on.
fn feed_on(
    s: Reading,
    bytes: &[u8],
    grid: Grid,
    cells: &[u16],
    starts: &mut [u16],
    goals: &mut [u16],
) -> Reading
    ensures { FeedsOn cells.now grid s bytes.now result starts.old starts.new goals.old goals.new }
{
    let mut at = s;
    for b in bytes {
        let r = step(at, *b, grid, cells);
        carrier_lists::keep(at.count, r.count, r.start, r.goal, starts, goals);
        at = r;
    }
    at
}

// The whole file, or a piece of it, from any state on. Starts and goals are stored as far as there is room for them.
pub fn feed(
    s: Reading,
    bytes: &[u8],
    grid: Grid,
    cells: &[u16],
    starts: &mut [u16],
    goals: &mut [u16],
) -> Reading
    ensures { Feeds cells.now grid s bytes.now result starts.old starts.new goals.old goals.new }
{
    feed_on(taken(s), bytes, grid, cells, starts, goals)
}

// The end of the scenario, after a state.
fn finish_on(
    s: Reading,
    grid: Grid,
    cells: &[u16],
    starts: &mut [u16],
    goals: &mut [u16],
) -> Reading
    ensures { EndsOn cells.now grid s result starts.old starts.new goals.old goals.new }
{
    let r = finished(s, grid, cells);
    carrier_lists::keep(s.count, r.count, r.start, r.goal, starts, goals);
    r
}

// The same after any state.
pub fn finish(
    s: Reading,
    grid: Grid,
    cells: &[u16],
    starts: &mut [u16],
    goals: &mut [u16],
) -> Reading
    ensures { Ends cells.now grid s result starts.old starts.new goals.old goals.new }
{
    finish_on(taken(s), grid, cells, starts, goals)
}

// All bytes of the scenario, and its end.
fn fold(file: &[u8], grid: Grid, cells: &[u16], starts: &mut [u16], goals: &mut [u16]) -> Reading
    ensures { Ended file.now grid cells.now result starts.old starts.new goals.old goals.new }
{
    let s = feed_on(start(), file, grid, cells, starts, goals);
    finish_on(s, grid, cells, starts, goals)
}

// The scenario: how many carriers, with their starts and goals in the lent lists, or the first bad line, which changes neither.
pub fn read(
    file: &[u8],
    grid: Grid,
    cells: &[u16],
    starts: &mut [u16],
    goals: &mut [u16],
) -> Result<u16, u64>
    ensures { Reads file.now grid cells.now result starts.old starts.new goals.old goals.new }
{
    let mut no_start = [0u16; 1];
    let mut no_goal = [0u16; 1];
    answer(fold(file, grid, cells, &mut no_start, &mut no_goal))?;
    answer(fold(file, grid, cells, starts, goals))
}
