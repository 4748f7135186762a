// A placement made ready to be played on: who stands at each bay, and which bays are empty.
#![tactic(auto)]

ghost use Rattle.std.specs.Prelude.{◌≡◌, ℕ, ◌≤◌, ◌<◌, length};
ghost use Rattle.paper.specs.Yard.{bay_of};
ghost use Rattle.paper.proofs.Playing.{Apart};
ghost use Rattle.words.specs.Sets.{words, span};
ghost use Rattle.moving.specs.Placed.{Placed};
ghost use Rattle.placing.specs.Nobody.{Nobody};

// Nobody stands anywhere, and every bay is empty. No carrier has the number k.
fn nobody(k: u16, standing: &mut [u16], empty: &mut [u64])
    requires { (length standing.old ≤ span) × (length empty.old ≡ words) }
    ensures { Nobody (length standing.old) k standing.new empty.new }
{
    words::clear(empty);
    for (b, carrier) in standing.iter_mut().enumerate() {
        *carrier = k;
        words::add(empty, b);
    }
}

// Each carrier stands at its bay. The carriers' bays are different bays of the yard.
pub fn place(placement: &[u16], standing: &mut [u16], empty: &mut [u64])
    requires { (length standing.old ≤ span)
        × (length empty.old ≡ words)
        × (length placement.now ≤ length standing.old)
        × Apart placement.now
        × ((c : ℕ) → c < length placement.now → bay_of placement.now c < length standing.old) }
    ensures { Placed (length standing.old) placement.now standing.new empty.new }
{
    nobody(placement.len() as u16, standing, empty);
    for (c, b) in placement.iter().enumerate() {
        let b = *b as usize;
        standing[b] = c as u16;
        words::remove(empty, b);
    }
}
