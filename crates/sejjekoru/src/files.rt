// The whole reading of a map and of a scenario, for C.
ghost use Rattle.paper.specs.Map.{read_map};
ghost use Rattle.listing.specs.Reading.{laying, listing};
ghost use Rattle.sejjekoru.specs.Files.{MapTells, ScenarioTells};

#[unsafe(no_mangle)]
pub extern "C" fn sejjekoru_map(
    map: &[u8],
    bays: &mut u64,
    rails: &mut [u16],
    value: &mut u64,
) -> u64
    ensures { MapTells (laying (read_map map.now)) rails.old result value.new bays.new rails.new }
{
    let answer = readers::read_map(map, bays, rails);
    numbers::told(answer, value)
}

#[unsafe(no_mangle)]
pub extern "C" fn sejjekoru_scenario(
    map: &[u8],
    scenario: &[u8],
    start: &mut [u16],
    goal: &mut [u16],
    value: &mut u64,
) -> u64
    ensures { ScenarioTells (listing (read_map map.now) scenario.now) start.old goal.old result
        value.new start.new goal.new }
{
    let answer = readers::read_scenario(map, scenario, start, goal);
    numbers::told(answer, value)
}
