// Two lists of crossings compared: how many leading crossings are equal, the rest of the longer list, and each carrier's difference.
// All is tested and counted before anything is written, so a refusal leaves the differences as they were.
#![tactic(auto)]

ghost use Rattle.std.specs.Prelude.{◌≡◌, ◌≤◌, length, replicate};
ghost use Rattle.paper.specs.Basics.{or_else};
ghost use Rattle.paper.specs.Limits.{most_carriers};
ghost use Rattle.paper.specs.Yard.{most_crossings};
ghost use Rattle.comparing.specs.Comparing.{number_by, value_by};
ghost use Rattle.docket.specs.Reading.{verdict_of};
ghost use Rattle.comparing.specs.Statements.{counted_of, CountSays, DifferSays, CompareSays};

use docket::{Carrier, Refusal};
use yard::Yard;

// Counts each carrier's crossings, up to the first carrier number that no yard has.
fn count(list: &[u64], counts: &mut [u32; Yard::CARRIERS]) -> Result<(), Carrier>
    requires { (length list.now ≤ most_crossings) × (counts.old ≡ replicate most_carriers 0) }
    ensures { CountSays list.now result counts.new }
{
    for number in list {
        let carrier = docket::unpack(*number).carrier;
        let place = carrier.0 as usize;
        if Yard::CARRIERS <= place {
            return Err(carrier);
        }
        counts[place] += 1;
    }
    Ok(())
}

// The carrier number that the one list stops at, or else the other.
fn earlier(one: Result<(), Carrier>, other: Result<(), Carrier>) -> Result<(), Carrier>
    ensures { counted_of result ≡ or_else (counted_of one) (counted_of other) }
{
    one?;
    other
}

// The number of equal leading crossings, with the differences written, or why there is none.
fn differ(first: &[u64], second: &[u64], differences: &mut [i64]) -> Result<u64, Refusal>
    ensures { DifferSays first.now second.now differences.old result differences.new }
{
    if Yard::CROSSINGS < first.len() {
        return Err(Refusal::Size);
    }
    if Yard::CROSSINGS < second.len() {
        return Err(Refusal::Size);
    }
    let mut firsts = [0u32; Yard::CARRIERS];
    let of_first = count(first, &mut firsts);
    let mut seconds = [0u32; Yard::CARRIERS];
    let of_second = count(second, &mut seconds);
    let of_both = earlier(of_first, of_second);
    if let Err(carrier) = of_both {
        return Err(Refusal::Start(carrier));
    }
    if differences.len() != Yard::CARRIERS {
        return Err(Refusal::Room(Yard::CARRIERS as u64));
    }
    differences::fill(&firsts, &seconds, differences);
    Ok(leading::equal_leading(first, second) as u64)
}

// What C and Rust are told of the answer: its number, its value, and which list's rest is handed back.
fn number_of(answer: Result<u64, Refusal>) -> u64
    ensures { result ≡ number_by (verdict_of answer) }
{
    match answer {
        Ok(_) => 0,
        Err(r) => docket::number(r),
    }
}

fn value_of(answer: Result<u64, Refusal>) -> u64
    ensures { result ≡ value_by (verdict_of answer) }
{
    match answer {
        Ok(equal) => equal,
        Err(r) => docket::carried(r),
    }
}

// Compares: hands back the rest of the longer list, an empty part on refusal, and stores the answer's number, its value and which list it is.
pub fn compare<'a>(
    first: &'a [u64],
    second: &'a [u64],
    differences: &mut [i64],
    number: &mut u64,
    value: &mut u64,
    longer: &mut u64,
) -> &'a [u64]
    ensures { CompareSays first.now second.now differences.old result.now number.new value.new
        longer.new differences.new }
{
    let answer = differ(first, second, differences);
    *number = number_of(answer);
    *value = value_of(answer);
    *longer = leading::longer_of(first, second, answer);
    leading::rest(first, second, answer)
}
