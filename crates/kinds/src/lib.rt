// What kind of yard it is: in a carousel every bay has exactly two rails.
#![tactic(auto)]

ghost use Rattle.std.specs.Prelude.{◌≡◌, ◌*◌, ◌≤◌, length};
ghost use Rattle.paper.specs.Yard.{Yard, carousel};
ghost use Rattle.words.specs.Sets.{words, span};
ghost use Rattle.yard.specs.Table.{Table};

// Whether every bay has exactly two rails. In most yards one of the first bays has not.
pub fn is_carousel(table: &[u64], n: usize) -> bool
    requires { (n ≤ span) × (n * words ≤ length table.now) }
    ensures { (Y : Yard) → Table Y n table.now → result ≡ carousel Y }
{
    for v in 0..n {
        if choice::count_rails(table, v) != 2 {
            return false;
        }
    }
    true
}
