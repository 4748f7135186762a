// The procedure played in a room where its crossings are kept, and what comes of it handed out; a plan longer than its room is played once more. Yard and
// placements pass 1 to 6.
#![tactic(auto)]

ghost use Rattle.std.specs.Prelude.{◌≤◌, length};
ghost use Rattle.outcome.specs.FromBelow.{Admitted};
ghost use Rattle.outcome.specs.Handing.{HandsOutKept, HandsOutDue};

use docket::Refusal;
pub use outcome;
use outcome::{Handed, play};
use yard::Yard;

// In lent room: 7, 8 or the plan, or a plan that is longer than that room.
pub fn hand_out_in(
    table: &[u64; Yard::TABLE],
    yard: Yard,
    start: &[u16],
    goal: &[u16],
    kept: &mut [u64],
    out: &mut [u64],
) -> Handed
    requires { Admitted yard.bays table.now start.now goal.now }
    ensures { HandsOutKept yard.bays table.now start.now goal.now out.old result out.new }
{
    let played = play::play(table, yard, start, goal, kept);
    outcome::hand_out_kept(played, kept, out)
}

// A plan of m crossings that is due, played once more, straight into the lent list. It has that many places, and nothing is refused any more.
pub fn hand_out_again(
    table: &[u64; Yard::TABLE],
    yard: Yard,
    start: &[u16],
    goal: &[u16],
    m: usize,
    parked: usize,
    out: &mut [u64],
) -> Result<(u64, u64), Refusal>
    requires admitted { Admitted yard.bays table.now start.now goal.now }
    requires m_in_bounds { m ≤ length out.old }
    ensures { HandsOutDue yard.bays table.now start.now goal.now m parked out.old result out.new }
{
    let _ = play::play(table, yard, start, goal, &mut out[..m]);
    Ok((m as u64, parked as u64))
}
