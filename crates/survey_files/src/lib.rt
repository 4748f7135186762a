// Surveyors' files, read into a yard and written from one. A refusal changes no lent list.
#![tactic(auto)]

ghost use Rattle.surveying.specs.Says.{ReadSays, WriteSays};

use docket::Refusal;
use surveying::Survey;

// A file's yard: its bays, and its rail ends in the order held in the first places of the lent list.
pub fn read(file: &[u8], rails: &mut [u16]) -> Survey
    ensures { ReadSays file.now rails.old result rails.new }
{
    let mut room = [0u16; surveying::ENDS];
    let found = edges::read(file, &mut room);
    surveying::settle(found, &room, rails)
}

// A yard's file, in the first places of the lent list.
pub fn write(bays: u64, rails: &[u16], out: &mut [u8]) -> Result<u64, Refusal>
    ensures { WriteSays bays rails.now out.old result out.new }
{
    surveying::test(bays, rails)?;
    let mut none = [0u8; 1];
    let needed = survey_lines::write(bays, rails, &mut none);
    if out.len() < needed {
        return Err(Refusal::Room(needed as u64));
    }
    let written = survey_lines::write(bays, rails, out);
    Ok(written as u64)
}
