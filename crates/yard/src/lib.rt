// A yard, its limits, and how one is opened: refusals 1 to 6 in their order, and the table of joined bays.
#![tactic(auto)]

ghost use Rattle.std.specs.Prelude.{◌≡◌, false, ℕ, ◌*◌, ◌≤◌, length};
ghost use Rattle.paper.specs.Limits.{fewest_bays, most_bays, set_words, most_rails, most_carriers, most_crossings, kept_empty};
ghost use Rattle.paper.specs.Order.{order};
ghost use Rattle.paper.specs.Docket.{bad_size};
ghost use Rattle.words.specs.Sets.{mem};
ghost use Rattle.occupancy.specs.Standing.{Empty};
ghost use Rattle.yard.specs.Opening.{Tests, Opens};

use docket::{Bay, Carrier, Refusal};

// A yard by its numbers: of bays, and of rail ends, two for each rail. Its rails are in the table.
#[derive(Clone, Copy)]
pub struct Yard {
    pub bays: usize,
    pub ends: usize,
}

impl Yard {
    // The limits, and the words of a table with a row for each bay.
    pub const FEWEST: usize = paper::FEWEST;

    pub const BAYS: usize = paper::BAYS;

    pub const WORDS: usize = paper::WORDS;

    pub const RAILS: usize = paper::RAILS;

    pub const CARRIERS: usize = paper::CARRIERS;

    pub const CROSSINGS: usize = paper::CROSSINGS;

    pub const KEPT_EMPTY: usize = paper::KEPT_EMPTY;

    pub const TABLE: usize = first_bad::TABLE;

    // They are the paper's: this function does nothing, its statement is the theorem.
    pub fn limits()
        ensures fewest { Yard.FEWEST ≡ fewest_bays }
        ensures bays { Yard.BAYS ≡ most_bays }
        ensures words { Yard.WORDS ≡ set_words }
        ensures rails { Yard.RAILS ≡ most_rails }
        ensures carriers { Yard.CARRIERS ≡ most_carriers }
        ensures crossings { Yard.CROSSINGS ≡ most_crossings }
        ensures kept_empty { Yard.KEPT_EMPTY ≡ kept_empty }
    {}

    // Tests 1 to 6 in their order. An open yard's table holds its rails; a refused one's is empty.
    pub fn open(
        bays: u64,
        rails: &[u16],
        start: &[u16],
        goal: &[u16],
        crossings: u64,
        table: &mut [u64; Yard::TABLE],
    ) -> Result<Yard, Refusal>
        ensures { Opens (order bays rails.now start.now goal.now) crossings result table.new }
    {
        words::clear(table);
        Yard::open_in(bays, rails, start, goal, crossings, table)
    }

    // The same in a table that is empty: one that was just made need not be cleared once more.
    pub fn open_in(
        bays: u64,
        rails: &[u16],
        start: &[u16],
        goal: &[u16],
        crossings: u64,
        table: &mut [u64; Yard::TABLE],
    ) -> Result<Yard, Refusal>
        requires { (x : ℕ) → mem table.old x ≡ false }
        ensures { Opens (order bays rails.now start.now goal.now) crossings result table.new }
    {
        let tested = first_six(bays as usize, rails, start, goal, crossings as usize, table);
        if let Err(r) = tested {
            words::clear(table);
            return Err(r);
        }
        tested
    }

    // How many of its bays are empty in a placement.
    pub fn empty_bays(self, place: &[u16]) -> usize
        ensures { Empty self.bays place.now result }
    {
        occupancy::empty_bays(self.bays, place)
    }
}

// The first of 1 to 6, with a table that is empty and has a row for each bay. An open yard's rails are in it.
pub fn first_six(
    n: usize,
    rails: &[u16],
    start: &[u16],
    goal: &[u16],
    crossings: usize,
    table: &mut [u64],
) -> Result<Yard, Refusal>
    requires { (n ≤ most_bays → n * set_words ≤ length table.old) × ((x : ℕ) → mem table.old x ≡ false) }
    ensures { Tests (order n rails.now start.now goal.now) crossings result table.new }
{
    if bad_size(n, rails, start, goal, crossings) {
        return Err(Refusal::Size);
    }
    let rail = first_bad::bad_rail(n, rails, table);
    if let Some(i) = rail {
        return Err(Refusal::Rail(i as u64));
    }
    let apart = apart::lowest_apart(n, table);
    if let Some(b) = apart {
        return Err(Refusal::Apart(Bay(b as u16)));
    }
    // This way round no length is too long to be compared: 1 has passed, so n is 2 or more.
    if n - Yard::KEPT_EMPTY < start.len() {
        return Err(Refusal::Crowd);
    }
    let from = first_bad::bad_place(n, start);
    if let Some(c) = from {
        return Err(Refusal::Start(Carrier(c as u32)));
    }
    let to = first_bad::bad_place(n, goal);
    if let Some(c) = to {
        return Err(Refusal::Goal(Carrier(c as u32)));
    }
    Ok(Yard {
        bays: n,
        ends: rails.len(),
    })
}

// Refusal 1.
fn bad_size(n: usize, rails: &[u16], start: &[u16], goal: &[u16], crossings: usize) -> bool
    ensures { result ≡ bad_size (order n rails.now start.now goal.now) crossings }
{
    if n < Yard::FEWEST {
        return true;
    }
    if Yard::BAYS < n {
        return true;
    }
    if Yard::RAILS < rails.len() / 2 {
        return true;
    }
    if rails.len() % 2 == 1 {
        return true;
    }
    if start.len() != goal.len() {
        return true;
    }
    Yard::CROSSINGS < crossings
}
