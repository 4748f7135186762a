// Two carriers trade places: what a swap comes to, in the placement and in what stands at each bay.
#![tactic(auto)]

ghost use Rattle.trade.specs.Trading.{TradeAsks, TradeSays};

use docket::Carrier;

// Carriers r and s trade places.
pub fn trade(placement: &mut [u16], standing: &mut [u16], r: Carrier, s: Carrier)
    requires { TradeAsks r.0 s.0 placement.old standing.old }
    ensures { TradeSays r.0 s.0 placement.old standing.old placement.new standing.new }
{
    let first = r.0 as usize;
    let second = s.0 as usize;
    let u = placement[first];
    let w = placement[second];
    placement[first] = w;
    placement[second] = u;
    let a = u as usize;
    let b = w as usize;
    standing[a] = s.0 as u16;
    standing[b] = r.0 as u16;
}
