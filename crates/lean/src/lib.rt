// The procedure played on a small stack: by the rails alone, with no room but the least.
#![tactic(auto)]

ghost use Rattle.std.specs.Prelude.{◌≤◌, length};
ghost use Rattle.outcome.specs.FromBelow.{Admitted};
ghost use Rattle.outcome.specs.Handing.{HandsOut, HandsOutKept, HandsOutDue};

use docket::Refusal;
use outcome::{Handed, play};
use yard::Yard;

// Crossings that the least room holds.
pub const LEAST: usize = 1024;

// By the rails alone, and with the least room.
fn hand_out_by_rails(
    table: &[u64; Yard::TABLE],
    n: usize,
    start: &[u16],
    goal: &[u16],
    out: &mut [u64],
) -> Handed
    requires { Admitted n table.now start.now goal.now }
    ensures { HandsOutKept n table.now start.now goal.now out.old result out.new }
{
    let mut kept = [0u64; LEAST];
    let played = play::play_by_rails(table, n, start, goal, &mut kept);
    outcome::hand_out_kept(played, &kept, out)
}

// A plan that is due, played again by the rails alone.
fn hand_out_again_by_rails(
    table: &[u64; Yard::TABLE],
    n: usize,
    start: &[u16],
    goal: &[u16],
    m: usize,
    parked: usize,
    out: &mut [u64],
) -> Result<(u64, u64), Refusal>
    requires admitted { Admitted n table.now start.now goal.now }
    requires m_in_bounds { m ≤ length out.old }
    ensures { HandsOutDue n table.now start.now goal.now m parked out.old result out.new }
{
    let _ = play::play_by_rails(table, n, start, goal, &mut out[..m]);
    Ok((m as u64, parked as u64))
}

// With the least room, and played again where the plan is longer than that.
pub fn hand_out_lean(
    table: &[u64; Yard::TABLE],
    n: usize,
    start: &[u16],
    goal: &[u16],
    out: &mut [u64],
) -> Result<(u64, u64), Refusal>
    requires { Admitted n table.now start.now goal.now }
    ensures { HandsOut n table.now start.now goal.now out.old result out.new }
{
    let handed = hand_out_by_rails(table, n, start, goal, out);
    match handed {
        Handed::Done(answer) => answer,
        Handed::Longer(m, parked) => {
            hand_out_again_by_rails(table, n, start, goal, m, parked, out)
        }
    }
}
