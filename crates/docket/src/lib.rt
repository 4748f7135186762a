// What stands on a docket: bays, carriers, crossings with their 64-bit number, and refusals with theirs.
// Bay and Carrier are types of their own: a bay number where a carrier's is due does not pass the compiler.
#![tactic(auto)]

ghost use Rattle.std.specs.Prelude.{◌≡◌};
ghost use Rattle.std.proofs.Math.Option.{get_or};
ghost use Rattle.paper.specs.Yard.{pack as packed, unpack as unpacked};
ghost use Rattle.paper.specs.Docket.{row, number as number_of, carried as carried_by};
ghost use Rattle.docket.specs.Reading.{crossing_of, refusal_of, row_of, is_some};

#[derive(Clone, Copy)]
pub struct Bay(pub u16);

#[derive(Clone, Copy)]
pub struct Carrier(pub u32);

// A bay's number has 16 bits: the base in which a crossing's two bays stand.
const BASE: u64 = 65536;

#[derive(Clone, Copy)]
pub struct Crossing {
    pub carrier: Carrier,
    pub from: Bay,
    pub to: Bay,
}

// Carrier times 2^32, plus from times 2^16, plus to.
pub fn pack(x: Crossing) -> u64
    ensures { result ≡ packed (crossing_of x) }
{
    let carrier = x.carrier.0 as u64;
    let from = x.from.0 as u64;
    let to = x.to.0 as u64;
    carrier * 4294967296 + from * BASE + to
}

// Every number reads as some crossing.
pub fn unpack(w: u64) -> Crossing
    ensures { crossing_of result ≡ unpacked w }
{
    Crossing {
        carrier: Carrier((w / 4294967296) as u32),
        from: Bay((w / BASE % BASE) as u16),
        to: Bay((w % BASE) as u16),
    }
}

// The table's refusals in its order, each with what it carries.
#[derive(Clone, Copy)]
pub enum Refusal {
    Size,
    Rail(u64),
    Apart(Bay),
    Crowd,
    Start(Carrier),
    Goal(Carrier),
    Stopped(Carrier),
    Room(u64),
    Illegal(u64),
    Missed(Carrier),
    Mismarked,
    Unknown,
    Early(u64),
    BadMap(u64),
    BadScenario(u64),
    BadSurvey(u64),
    Ended,
    LongPiece,
    Disagrees,
    Edition,
    Begun,
    BadPlan(u64),
    BadReports(u64),
}

// A row of the table: its number alone, or its number and what the refusal carries.
#[derive(Clone, Copy)]
enum Row {
    Plain(u64),
    Carrying(u64, u64),
}

// The table.
fn row_of(r: Refusal) -> Row
    ensures { row_of result ≡ row (refusal_of r) }
{
    match r {
        Refusal::Size => Row::Plain(1),
        Refusal::Rail(i) => Row::Carrying(2, i),
        Refusal::Apart(b) => Row::Carrying(3, b.0 as u64),
        Refusal::Crowd => Row::Plain(4),
        Refusal::Start(c) => Row::Carrying(5, c.0 as u64),
        Refusal::Goal(c) => Row::Carrying(6, c.0 as u64),
        Refusal::Stopped(c) => Row::Carrying(7, c.0 as u64),
        Refusal::Room(l) => Row::Carrying(8, l),
        Refusal::Illegal(i) => Row::Carrying(9, i),
        Refusal::Missed(c) => Row::Carrying(10, c.0 as u64),
        Refusal::Mismarked => Row::Plain(11),
        Refusal::Unknown => Row::Plain(12),
        Refusal::Early(e) => Row::Carrying(13, e),
        Refusal::BadMap(l) => Row::Carrying(14, l),
        Refusal::BadScenario(l) => Row::Carrying(15, l),
        Refusal::BadSurvey(l) => Row::Carrying(16, l),
        Refusal::Ended => Row::Plain(17),
        Refusal::LongPiece => Row::Plain(18),
        Refusal::Disagrees => Row::Plain(19),
        Refusal::Edition => Row::Plain(20),
        Refusal::Begun => Row::Plain(25),
        Refusal::BadPlan(l) => Row::Carrying(26, l),
        Refusal::BadReports(l) => Row::Carrying(27, l),
    }
}

// The number in the table's first column.
pub fn number(r: Refusal) -> u64
    ensures { result ≡ number_of (refusal_of r) }
{
    let row = row_of(r);
    match row {
        Row::Plain(n) => n,
        Row::Carrying(n, _) => n,
    }
}

// The number in its last column, 0 where the refusal carries nothing.
pub fn carried(r: Refusal) -> u64
    ensures { result ≡ get_or (carried_by (refusal_of r)) 0 }
{
    let row = row_of(r);
    match row {
        Row::Plain(_) => 0,
        Row::Carrying(_, v) => v,
    }
}

// Whether it carries one.
pub fn carries(r: Refusal) -> bool
    ensures { result ≡ is_some (carried_by (refusal_of r)) }
{
    let row = row_of(r);
    match row {
        Row::Plain(_) => false,
        Row::Carrying(_, _) => true,
    }
}
