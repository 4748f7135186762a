// The procedure played from a start, by carriers' bays alone: who stands where is worked out here, and in crowded yards the levels above
// the rails.
#![tactic(auto)]

ghost use Rattle.std.specs.Prelude.{◌≤◌, ◌<◌, ◌*◌, length};
ghost use Rattle.words.specs.Sets.{words, span};
ghost use Rattle.play.specs.Playing.{Admitted, TableAsks, PlayOnAsks, PlaysOut};

use acting::Tally;
pub use carry_all::home;
use docket::Carrier;
use words::{SPAN, WORDS};
use yard::Yard;

// Where this share of the bays is empty, or less, vacating has far to go, and many levels pay.
const CROWDED: usize = 12;

// Words that many levels take: so many tables have room for as many levels in any yard.
const HIGH: usize = 32 * Yard::TABLE;

// A yard with fewer bays has all its levels in the lesser room.
const WIDE: usize = 128;

// Where less than this share is empty, a few levels pay, unless the yard is dense. Where more is, vacating has not far to go.
const FILLED: usize = 4;

// Filling levels takes time, so there must be so many carriers more.
const SURPLUS: usize = 7;

// Words that a few levels take.
const LOW: usize = 8 * Yard::TABLE;

// From so many rail ends to a bay on a yard is dense: no bay is far, and plans are short.
pub const DENSE: usize = 6;

// From so many rail ends to two bays on a yard is like a grid. All others are narrow: an empty bay is often farther than levels reach,
// and plans are long.
pub const GRID: usize = 5;

// In lent room: a place for each carrier, and two for each bay. Whose goal a bay is, is worked out as who stands there. Nobody is finished yet,
// so no bay is settled.
fn play_on(
    table: &[u64],
    start: &[u16],
    goal: &[u16],
    placement: &mut [u16],
    standing: &mut [u16],
    owner: &mut [u16],
    out: &mut [u64],
) -> Result<Tally, Carrier>
    requires { PlayOnAsks table.now start.now goal.now placement.old standing.old owner.old }
    ensures { PlaysOut (length standing.old) table.now start.now goal.now out.old out.new result }
{
    let mut empty = [0u64; WORDS];
    let mut spare = [0u64; WORDS];
    let mut settled = [0u64; WORDS];
    copies::copy(placement, start);
    placing::place(start, standing, &mut empty);
    placing::place(goal, owner, &mut spare);
    carry_all::carry_all(
        table,
        goal,
        owner,
        placement,
        standing,
        &mut empty,
        &mut settled,
        out,
    )
}

// On a table that may go on above its rails.
fn play_in(
    table: &[u64],
    n: usize,
    start: &[u16],
    goal: &[u16],
    out: &mut [u64],
) -> Result<Tally, Carrier>
    requires { TableAsks n table.now start.now goal.now }
    ensures { PlaysOut n table.now start.now goal.now out.old out.new result }
{
    let carriers = start.len();
    let mut placement = [0u16; SPAN];
    let mut standing = [0u16; SPAN];
    let mut owner = [0u16; SPAN];
    play_on(
        table,
        start,
        goal,
        &mut placement[..carriers],
        &mut standing[..n],
        &mut owner[..n],
        out,
    )
}

// By the rails alone. Wanted by itself where the stack has no room for levels.
pub fn play_by_rails(
    table: &[u64],
    n: usize,
    start: &[u16],
    goal: &[u16],
    out: &mut [u64],
) -> Result<Tally, Carrier>
    requires admitted { Admitted n table.now start.now goal.now }
    requires words_in_bounds { n * words ≤ length table.now }
    ensures { PlaysOut n table.now start.now goal.now out.old out.new result }
{
    let rails = n * WORDS;
    play_in(&table[..rails], n, start, goal, out)
}

// With levels above the rails, as many as fit into the lent room.
fn play_by_levels(
    table: &[u64; Yard::TABLE],
    n: usize,
    start: &[u16],
    goal: &[u16],
    wide: &mut [u64],
    out: &mut [u64],
) -> Result<Tally, Carrier>
    requires admitted { Admitted n table.now start.now goal.now }
    requires n_nonzero { 0 < n }
    requires words_in_bounds { span * words ≤ length wide.old }
    ensures { PlaysOut n table.now start.now goal.now out.old out.new result }
{
    copies::copy(wide, table);
    let levels = levels::raise(n, wide);
    let size = levels * n * WORDS;
    play_in(&wide[..size], n, start, goal, out)
}

// With as many levels as ROOM words hold. The large array stands here only, since clearing it takes time.
fn play_within<const ROOM: usize>(
    table: &[u64; Yard::TABLE],
    n: usize,
    start: &[u16],
    goal: &[u16],
    out: &mut [u64],
) -> Result<Tally, Carrier>
    requires admitted { Admitted n table.now start.now goal.now }
    requires n_nonzero { 0 < n }
    requires room_for_table { span * words ≤ ROOM }
    requires room_within_high { ROOM ≤ 32 * (span * words) }
    ensures { PlaysOut n table.now start.now goal.now out.old out.new result }
{
    let mut wide = [0u64; ROOM];
    play_by_levels(table, n, start, goal, &mut wide, out)
}

// The crossings of the procedure, counted, and stored where the list has room for all; or the carrier that could not step. The yard's numbers
// tell which levels pay.
pub fn play(
    table: &[u64; Yard::TABLE],
    yard: Yard,
    start: &[u16],
    goal: &[u16],
    out: &mut [u64],
) -> Result<Tally, Carrier>
    requires { Admitted yard.bays table.now start.now goal.now }
    ensures { PlaysOut yard.bays table.now start.now goal.now out.old out.new result }
{
    let n = yard.bays;
    let ends = yard.ends;
    let carriers = start.len();
    if carriers < n - n / FILLED + SURPLUS || ends / GRID * 2 < n {
        return play_by_rails(table, n, start, goal, out);
    }
    let empty = yard.empty_bays(start);
    // Fewer rails than a grid has, and hardly a bay empty: the procedure soon stops.
    if ends / 3 < n && empty <= Yard::KEPT_EMPTY {
        return play_by_rails(table, n, start, goal, out);
    }
    if n / CROWDED < empty {
        if n <= ends / DENSE {
            return play_by_rails(table, n, start, goal, out);
        }
        return play_within::<LOW>(table, n, start, goal, out);
    }
    if n < WIDE {
        return play_within::<LOW>(table, n, start, goal, out);
    }
    play_within::<HIGH>(table, n, start, goal, out)
}
