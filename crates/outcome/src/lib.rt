// What the procedure comes to for its caller: 7, 8, or the plan in the list that was lent.
#![tactic(auto)]

ghost use Rattle.std.specs.Prelude.{List, ℕ};
ghost use Rattle.paper.specs.Procedure.{Outcome};
ghost use Rattle.play.specs.Playing.{Plays};
ghost use Rattle.outcome.specs.Handing.{HandsIfKept};

use acting::Tally;
use docket::{Carrier, Refusal};
pub use play;
use yard::Yard;

// What comes of a plan in the room that it was kept in. Neither of the two is a refusal of the other: as a Result it would be no plainer.
#[derive(Clone, Copy)]
pub enum Handed {
    Done(Result<(u64, u64), Refusal>),
    // neither 7 nor 8 refuses it, and it is longer than that room: its length and its count
    Longer(usize, usize),
}

// 7, then 8, else the plan, of what was played while its crossings were kept. They are copied where all were kept.
pub fn hand_out_kept(played: Result<Tally, Carrier>, kept: &[u64], out: &mut [u64]) -> Handed
    ensures { (o : Outcome) (before : List ℕ)
        → Plays o before kept.now played
        → HandsIfKept o out.old result out.new }
{
    match played {
        Err(c) => Handed::Done(Err(Refusal::Stopped(c))),
        Ok(tally) => {
            let m = tally.crossings;
            let parked = tally.parked;
            if out.len() < m {
                return Handed::Done(Err(Refusal::Room(m as u64)));
            }
            if Yard::CROSSINGS < m {
                return Handed::Done(Err(Refusal::Room(m as u64)));
            }
            if kept.len() < m {
                return Handed::Longer(m, parked);
            }
            copies::copy(out, &kept[..m]);
            Handed::Done(Ok((m as u64, parked as u64)))
        }
    }
}
