// What was read of a surveyors' file is tested as a yard and taken over. A refusal changes no lent list.
#![tactic(auto)]

ghost use Rattle.std.specs.Prelude.{◌≡◌};
ghost use Rattle.survey.specs.Survey.{first_three};
ghost use Rattle.surveying.specs.Says.{tested_of, Refuses, AcceptSays, TakeSays, SettleSays};

use docket::Refusal;
use yard::Yard;

// The ends of a yard with the most rails.
pub const ENDS: usize = 2 * Yard::RAILS;

// What reading answers: the number of rail ends and the bays, or a refusal and 0.
#[derive(Clone, Copy)]
pub struct Survey {
    pub bays: u64,
    pub verdict: Result<u64, Refusal>,
}

// 1 to 3, of a yard with no carriers.
pub fn test(bays: u64, rails: &[u16]) -> Result<(), Refusal>
    ensures { tested_of result ≡ first_three bays rails.now }
{
    let mut table = [0u64; Yard::TABLE];
    let nobody = &rails[..0];
    Yard::open_in(bays, rails, nobody, nobody, 0, &mut table)?;
    Ok(())
}

// A refusal tells no bays.
fn refused(r: Refusal) -> Survey
    ensures { Refuses r result }
{
    Survey {
        bays: 0,
        verdict: Err(r),
    }
}

// The ends of a file that keeps its layout go to the lent list, after 1 to 3 and 8.
fn accept(bays: u64, ends: &[u16], rails: &mut [u16]) -> Survey
    ensures { AcceptSays bays ends.now rails.old result rails.new }
{
    let tested = test(bays, ends);
    if let Err(r) = tested {
        return refused(r);
    }
    let count = ends.len();
    if rails.len() < count {
        return refused(Refusal::Room(count as u64));
    }
    copies::copy(rails, ends);
    Survey {
        bays: bays,
        verdict: Ok(count as u64),
    }
}

// So many ends from a room's first places. More than it has are 1.
fn take_over(bays: u64, count: usize, room: &[u16], rails: &mut [u16]) -> Survey
    ensures { TakeSays bays count room.now rails.old result rails.new }
{
    if room.len() < count {
        return refused(Refusal::Size);
    }
    accept(bays, &room[..count], rails)
}

// What was read, with its ends in a room for at least ENDS that `edges` filled: for a file that comes in pieces too.
pub fn settle(found: Result<(u32, u64), u64>, room: &[u16], rails: &mut [u16]) -> Survey
    ensures { SettleSays found room.now rails.old result rails.new }
{
    match found {
        Err(line) => refused(Refusal::BadSurvey(line)),
        Ok((bays, ends)) => take_over(bays as u64, ends as usize, room, rails),
    }
}
