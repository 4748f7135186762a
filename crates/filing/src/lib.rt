// The two files as an order: a yard's bays and rails and its carriers' starts and goals, or refusal 14 or 15.
#![tactic(auto)]

ghost use Rattle.filing.specs.Filing.{file_of, MapFiled, ScenarioFiled, Files};

use docket::Refusal;
use gridmap::Grid;

// How many bays, ends of rails and carriers an order has.
#[derive(Clone, Copy)]
pub struct Order {
    pub bays: u64,
    pub ends: usize,
    pub carriers: usize,
}

// The map; one that can't be read is bad at line 0.
fn read_map(map: &[u8], readable: bool, cells: &mut [u16]) -> Result<Grid, u64>
    ensures { MapFiled (file_of readable map.now) cells.old result cells.new }
{
    if readable {
        return gridmap::read(map, cells);
    }
    Err(0) // where there is no map
}

// The scenario, likewise.
fn read_scenario(
    scenario: &[u8],
    readable: bool,
    grid: Grid,
    cells: &[u16],
    starts: &mut [u16],
    goals: &mut [u16],
) -> Result<u16, u64>
    ensures { ScenarioFiled (file_of readable scenario.now) grid cells.now result starts.old starts.new
        goals.old goals.new }
{
    if readable {
        return scenario::read(scenario, grid, cells, starts, goals);
    }
    Err(0)
}

// 14, then 15, then the order, with its rails, starts and goals in the lent lists. A refusal changes none.
pub fn read_order(
    map: &[u8],
    mapped: bool,
    scenario: &[u8],
    listed: bool,
    ends: &mut [u16],
    starts: &mut [u16],
    goals: &mut [u16],
) -> Result<Order, Refusal>
    ensures { Files (file_of mapped map.now) (file_of listed scenario.now) result ends.old ends.new
        starts.old starts.new goals.old goals.new }
{
    let mut cells = [0u16; 4096];
    let found = read_map(map, mapped, &mut cells);
    match found {
        Ok(grid) => {
            let carriers_found = read_scenario(scenario, listed, grid, &cells, starts, goals);
            match carriers_found {
                Ok(carriers) => {
                    let n = gridmap::rails(grid, &cells, ends);
                    Ok(Order {
                        bays: grid.bays as u64,
                        ends: n,
                        carriers: carriers as usize,
                    })
                }
                Err(line) => Err(Refusal::BadScenario(line)),
            }
        }
        Err(line) => Err(Refusal::BadMap(line)),
    }
}
