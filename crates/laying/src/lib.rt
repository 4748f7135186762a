// A map's bays and rails, by the numbers of its cells, in a lent list; or 8 where the rails have more ends than it holds.
// All is counted before the first number is stored, so a refusal does not change the list.
#![tactic(auto)]

ghost use Rattle.gridmap.specs.Cells.{rails_in};
ghost use Rattle.docket.specs.Reading.{verdict_of};
ghost use Rattle.laying.specs.Laying.{laid, MapSays};

use docket::Refusal;
use gridmap::Grid;

// The bays and rails of a map whose cells are numbered.
pub fn lay(grid: Grid, cells: &[u16], bays: &mut u64, rails: &mut [u16]) -> Result<u64, Refusal>
    ensures { MapSays (laid grid.bays (rails_in cells.now grid.height grid.width)) rails.old (verdict_of result)
        bays.new rails.new }
{
    let mut nothing = [0u16; 1];
    let needed = gridmap::rails(grid, cells, &mut nothing);
    if rails.len() < needed {
        *bays = 0;
        return Err(Refusal::Room(needed as u64));
    }
    let written = gridmap::rails(grid, cells, rails);
    *bays = grid.bays as u64;
    Ok(written as u64)
}
