// The done crossings, moved on a placement in plan order.
#![tactic(auto)]

ghost use Rattle.std.specs.Prelude.{◌≡◌, length};
ghost use Rattle.paper.specs.Limits.{most_bays};
ghost use Rattle.paper.specs.Yard.{crossings, after};
ghost use Rattle.paper.specs.Dependence.{done_of};
ghost use Rattle.paper.specs.OnePass.{Fits};

// The carriers of the done crossings are moved, each to where its crossing leads.
pub fn move_done(plan: &[u64], marks: &[u8], at: &mut [u16])
    requires { (length marks.now ≡ length plan.now) × Fits (length at.old) most_bays plan.now }
    ensures { at.new ≡ after at.old (done_of (crossings plan.now) marks.now) }
{
    for i in 0..plan.len() {
        if marks[i] == 1 {
            let x = plans::crossing_at(plan, i);
            let carrier = x.carrier.0 as usize;
            at[carrier] = x.to.0;
        }
    }
}
