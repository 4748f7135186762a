// Each carrier's difference: its crossings in the second list less those in the first.
#![tactic(auto)]

ghost use Rattle.std.specs.Prelude.{◌≡◌, pos, ◌-ℤ◌, length};
ghost use Rattle.paper.specs.Limits.{most_carriers};
ghost use Rattle.differences.specs.Filled.{FillSays};

use paper::CARRIERS;

// Second less first, carrier by carrier.
pub fn fill(firsts: &[u32; CARRIERS], seconds: &[u32; CARRIERS], differences: &mut [i64])
    requires { length differences.old ≡ most_carriers }
    ensures { FillSays seconds.now firsts.now differences.new }
{
    for c in 0..CARRIERS {
        differences[c] = i64::from(seconds[c]) - i64::from(firsts[c]);
    }
}
