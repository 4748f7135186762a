// Records and lines by value: whether two records are the same, and how an accepted crossing changes a record and a line.
#![tactic(auto)]

ghost use Rattle.std.specs.Prelude.{◌≡◌, ◌<◌, get_or};
ghost use Rattle.paper.specs.Limits.{most_bays};
ghost use Rattle.docket.specs.Reading.{crossing_of};
ghost use Rattle.bills.specs.Billing.{no_line, posted as posted_of, charged as charged_of};
ghost use Rattle.bills.specs.Answering.{same_record};

use bills::{Line, Record};
use docket::Crossing;
use yard::Yard;

// The line that stands where there is none.
pub fn no_line() -> Line
    ensures { result ≡ no_line }
{
    Line {
        carrier: 0,
        billed: 0,
        last: 0,
    }
}

// The line at place i: none past the last place.
pub fn line_in(lines: [Line; Yard::BAYS], i: usize) -> Line
    ensures { result ≡ get_or lines i no_line }
{
    if i < Yard::BAYS { lines[i] } else { no_line() }
}

// Whether two records are the same.
pub fn same_record(a: Record, b: Record) -> bool
    ensures { result ≡ same_record a b }
{
    a == b
}

// The record after an accepted crossing.
pub fn posted(running: Record, x: Crossing, slot: u32) -> Record
    requires { (x.carrier.0 < most_bays) × (running.done < 4294967295) }
    ensures { result ≡ posted_of running (crossing_of x) slot }
{
    let carrier = x.carrier.0 as usize;
    let mut at = running.at;
    at[carrier] = x.to.0;
    Record {
        at,
        done: running.done + 1,
        highest: running.highest.max(slot),
    }
}

// The line after an accepted name.
pub fn charged(line: Line, name: u32) -> Line
    requires { line.billed < 4294967295 }
    ensures { result ≡ charged_of line name }
{
    Line {
        carrier: line.carrier,
        billed: line.billed + 1,
        last: name,
    }
}
