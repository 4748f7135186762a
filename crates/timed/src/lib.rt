// The timed plan on bytes: from the two files to all that is printed. It is handed over whole or not at all.
#![tactic(auto)]

ghost use Rattle.filing.specs.Filing.{file_of};
ghost use Rattle.timed_handing.specs.Timed.{program_timed};
ghost use Rattle.timed_handing.specs.Handing.{TimedSays};

use docket::Refusal;
use print_room::CROSSINGS;

// All that is printed, by an edition of slots, for two files, each with whether it could be read. The answer is how many bytes were written, or 8
// with how many it takes.
pub fn program(
    edition: u64,
    map: &[u8],
    mapped: bool,
    scenario: &[u8],
    listed: bool,
    shorten: bool,
    out: &mut [u8],
) -> Result<u64, Refusal>
    ensures { TimedSays (program_timed edition shorten (file_of mapped map.now) (file_of listed scenario.now))
        out.old result out.new }
{
    let mut plan = [0u64; CROSSINGS];
    let fits = editions::known(edition);
    if !fits {
        return timed_handing::hand(edition, Err(Refusal::Edition), &plan, out);
    }
    let answer = program::answer_for(shorten, map, mapped, scenario, listed, &mut plan);
    timed_handing::hand(edition, answer, &plan, out)
}
