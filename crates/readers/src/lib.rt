// The whole reading of a map and of a scenario, for a caller that has files and no reader: bays and rails, starts and goals, or refusal 14 or 15;
// and 8 where what was read is longer than the lent lists. A refusal changes no list.
#![tactic(auto)]

ghost use Rattle.paper.specs.Map.{read_map};
ghost use Rattle.docket.specs.Reading.{verdict_of};
ghost use Rattle.listing.specs.Reading.{laying, listing, MapSays, ScenarioSays};

use docket::Refusal;

// The map: answers the number of its rails' ends, which stand in the list, lower bay first. The bays are 0 where it is refused.
pub fn read_map(file: &[u8], bays: &mut u64, rails: &mut [u16]) -> Result<u64, Refusal>
    ensures { MapSays (laying (read_map file.now)) rails.old (verdict_of result) bays.new rails.new }
{
    let mut cells = [0u16; 4096];
    let found = gridmap::read(file, &mut cells);
    match found {
        Ok(grid) => laying::lay(grid, &cells, bays, rails),
        Err(line) => {
            *bays = 0;
            Err(Refusal::BadMap(line))
        }
    }
}

// The scenario on its map: 14, then 15, then the number of carriers, with their starts and goals in the lists.
pub fn read_scenario(
    map: &[u8],
    file: &[u8],
    starts: &mut [u16],
    goals: &mut [u16],
) -> Result<u64, Refusal>
    ensures { ScenarioSays (listing (read_map map.now) file.now) starts.old goals.old (verdict_of result)
        starts.new goals.new }
{
    let mut cells = [0u16; 4096];
    let found = gridmap::read(map, &mut cells);
    match found {
        Ok(grid) => listing::list(grid, &cells, file, starts, goals),
        Err(line) => Err(Refusal::BadMap(line)),
    }
}
