// The bays of the finished carriers are kept as a set. Here is what a step changes in it.
#![tactic(auto)]

ghost use Rattle.settle.specs.Settling.{SettleAsks, SettleSays};

use docket::Bay;

// The set after whoever stood at u and at w have traded bays: if one of the two was in it, that one leaves and the other joins.
pub fn settle(settled: &mut [u64], u: Bay, w: Bay)
    requires { SettleAsks settled.old u.0 w.0 }
    ensures { SettleSays settled.old u.0 w.0 settled.new }
{
    let from = u.0 as usize;
    let to = w.0 as usize;
    let left = words::is_in(settled, from);
    if words::is_in(settled, to) {
        if left {
            return;
        }
        words::replace(settled, to, from);
        return;
    }
    if left {
        words::replace(settled, from, to);
    }
}
