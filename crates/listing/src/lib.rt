// A scenario's carriers, by the numbers of the map's cells, in lent lists; or 15, or 8 where there are more than these hold.
// All is counted before the first number is stored, so a refusal changes no list.
#![tactic(auto)]

ghost use Rattle.paper.specs.Scenario.{read_scenario};
ghost use Rattle.scenario.specs.Under.{bay_by};
ghost use Rattle.docket.specs.Reading.{verdict_of};
ghost use Rattle.listing.specs.Reading.{listing_in, ScenarioSays};

use docket::Refusal;
use gridmap::Grid;

// The carriers of a scenario, by the cells' numbers. They are counted before the first is stored.
pub fn list(
    grid: Grid,
    cells: &[u16],
    file: &[u8],
    starts: &mut [u16],
    goals: &mut [u16],
) -> Result<u64, Refusal>
    ensures { ScenarioSays (listing_in (read_scenario grid.width grid.height (bay_by cells.now grid) file.now))
        starts.old goals.old (verdict_of result) starts.new goals.new }
{
    let mut no_start = [0u16; 1];
    let mut no_goal = [0u16; 1];
    let found = scenario::read(file, grid, cells, &mut no_start, &mut no_goal);
    match found {
        Ok(carriers) => {
            let needed = carriers as usize;
            if starts.len() < needed {
                return Err(Refusal::Room(needed as u64));
            }
            if goals.len() < needed {
                return Err(Refusal::Room(needed as u64));
            }
            let _ = scenario::read(file, grid, cells, starts, goals);
            Ok(needed as u64)
        }
        Err(line) => Err(Refusal::BadScenario(line)),
    }
}
