// How many leading crossings of two lists are equal, and the rest of the longer list.
#![tactic(auto)]

ghost use Rattle.std.specs.Prelude.{◌≡◌, min};
ghost use Rattle.docket.specs.Reading.{verdict_of};
ghost use Rattle.leading.specs.Leading.{equal_leading, longer_by, part_by, Within};

use docket::Refusal;

// How many leading crossings are equal.
pub fn equal_leading(first: &[u64], second: &[u64]) -> usize
    ensures { result ≡ equal_leading first.now second.now }
{
    let both = first.len().min(second.len());
    for equal in 0..both {
        if first[equal] != second[equal] {
            return equal;
        }
    }
    both
}

// Which list's rest is handed back: 1, 2, or 0 for none.
pub fn longer_of(first: &[u64], second: &[u64], answer: Result<u64, Refusal>) -> u64
    ensures { result ≡ longer_by first.now second.now (verdict_of answer) }
{
    match answer {
        Ok(_) => { if first.len() < second.len() { 2 } else { 1 } }
        Err(_) => 0,
    }
}

// The rest of the longer list, from the first difference on.
pub fn rest<'a>(first: &'a [u64], second: &'a [u64], answer: Result<u64, Refusal>) -> &'a [u64]
    requires { Within first.now second.now (verdict_of answer) }
    ensures { result.now ≡ part_by first.now second.now (verdict_of answer) }
{
    let Ok(equal) = answer else {
        return &first[first.len()..];
    };
    let from = equal as usize;
    if first.len() < second.len() {
        &second[from..]
    } else {
        &first[from..]
    }
}
