// The plan check: refusals 1 to 6 by the yard's opening, then 9 and 10 by playing the plan from the start.
// It takes any plan and never asks the planner.
#![tactic(auto)]

ghost use Rattle.std.specs.Prelude.{◌≡◌, false, ℕ, ◌*◌, ◌≤◌, length};
ghost use Rattle.paper.specs.Yard.{crossings};
ghost use Rattle.paper.specs.Order.{order};
ghost use Rattle.paper.specs.Answers.{check as check_of};
ghost use Rattle.words.specs.Sets.{mem, words, span};
ghost use Rattle.replay.specs.Playing.{InRows, legality_of};
ghost use Rattle.checker.specs.Reading.{checked_of, Placed, nine_ten, NineTen};

use docket::Refusal;
use words::{SPAN, WORDS};
use yard::Yard;

// 9 where a crossing was illegal; else 10 where a carrier is not home.
fn judge(legality: Result<(), u64>, at: &[u16], goal: &[u16]) -> Result<(), Refusal>
    requires { (length at.now ≡ length goal.now) × (length goal.now ≤ span) }
    ensures { checked_of result ≡ nine_ten (legality_of legality) at.now goal.now }
{
    if let Err(i) = legality {
        return Err(Refusal::Illegal(i));
    }
    let away = replay::lowest_away(at, goal);
    match away {
        Some(c) => Err(Refusal::Missed(c)),
        None => Ok(()),
    }
}

// 9 and 10, once 1 to 6 have passed. The placement is worked out in `at`, which has a place for each carrier.
fn check_crossings(
    table: &[u64],
    rows: usize,
    start: &[u16],
    goal: &[u16],
    plan: &[u64],
    at: &mut [u16],
) -> Result<(), Refusal>
    requires { (length at.old ≡ length start.now) × Placed start.now goal.now × InRows rows table.now start.now }
    ensures { NineTen rows table.now start.now goal.now (crossings plan.now) (checked_of result) }
{
    copies::copy(at, start);
    let mut occupied = [0u8; SPAN];
    replay::occupy(start, &mut occupied);
    let legality = replay::play(table, rows, at, &mut occupied, plan);
    judge(legality, at, goal)
}

// The same, with a working array of its own.
fn check_from(
    table: &[u64],
    rows: usize,
    start: &[u16],
    goal: &[u16],
    plan: &[u64],
) -> Result<(), Refusal>
    requires { Placed start.now goal.now × InRows rows table.now start.now }
    ensures { NineTen rows table.now start.now goal.now (crossings plan.now) (checked_of result) }
{
    let carriers = start.len();
    let mut at = [0u16; Yard::BAYS];
    check_crossings(table, rows, start, goal, plan, &mut at[..carriers])
}

// The check in an empty table with so many rows, which are enough for the yard.
fn check_in(
    bays: u64,
    rails: &[u16],
    start: &[u16],
    goal: &[u16],
    plan: &[u64],
    rows: usize,
    table: &mut [u64],
) -> Result<(), Refusal>
    requires { (rows ≤ span)
        × (rows * words ≤ length table.old)
        × (bays ≤ span → bays ≤ rows)
        × ((x : ℕ) → mem table.old x ≡ false) }
    ensures { checked_of result ≡ check_of (order bays rails.now start.now goal.now) plan.now }
{
    yard::first_six(bays as usize, rails, start, goal, plan.len(), table)?;
    check_from(table, rows, start, goal, plan)
}

// The rows of a small table: as many as a word holds bays.
const NARROW: usize = SPAN / WORDS;

// The words of a small table.
const NARROW_TABLE: usize = NARROW * WORDS;

// The check in a table of so many words, which has a row for each bay of the yard.
fn check_by<const TABLE: usize>(
    bays: u64,
    rails: &[u16],
    start: &[u16],
    goal: &[u16],
    plan: &[u64],
) -> Result<(), Refusal>
    requires { (TABLE ≤ span * words) × (bays ≤ span → bays * words ≤ TABLE) }
    ensures { checked_of result ≡ check_of (order bays rails.now start.now goal.now) plan.now }
{
    let mut table = [0u64; TABLE];
    check_in(bays, rails, start, goal, plan, TABLE / WORDS, &mut table)
}

// The check tests 1 to 6, then 9, 10. A small yard has a small table, which is sooner cleared.
pub fn check(
    bays: u64,
    rails: &[u16],
    start: &[u16],
    goal: &[u16],
    plan: &[u64],
) -> Result<(), Refusal>
    ensures { checked_of result ≡ check_of (order bays rails.now start.now goal.now) plan.now }
{
    if bays <= NARROW as u64 {
        return check_by::<NARROW_TABLE>(bays, rails, start, goal, plan);
    }
    check_by::<{ Yard::TABLE }>(bays, rails, start, goal, plan)
}
