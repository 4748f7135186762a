// Slots by either edition, and the timed plan. `sejjekoru_slots` is the first edition, by which reports and bills go on.
ghost use Rattle.paper.specs.Order.{order};
ghost use Rattle.filing.specs.Filing.{file_of};
ghost use Rattle.sejjekoru.specs.ByEdition.{SlotsOfTell, TimedTells, given};

#[unsafe(no_mangle)]
pub extern "C" fn sejjekoru_slots_of(
    edition: u64,
    bays: u64,
    rails: &[u16],
    start: &[u16],
    goal: &[u16],
    plan: &[u64],
    slots: &mut [u32],
    value: &mut u64,
) -> u64
    ensures { SlotsOfTell (order bays rails.now start.now goal.now)
        plan.now edition slots.old result value.new slots.new }
{
    let answer = editions::slots_of(edition, bays, rails, start, goal, plan, slots);
    numbers::told(answer, value)
}

// All that `--timed` prints for two files, handed over whole or not at all. A flag is yes where it is not 0.
#[unsafe(no_mangle)]
pub extern "C" fn sejjekoru_program_timed(
    edition: u64,
    map: &[u8],
    map_read: u64,
    scenario: &[u8],
    scenario_read: u64,
    shorten: u64,
    out: &mut [u8],
    value: &mut u64,
) -> u64
    ensures { TimedTells edition (file_of (given map_read) map.now) (file_of (given scenario_read) scenario.now)
        (given shorten) out.old result value.new out.new }
{
    let answer = timed::program(
        edition,
        map,
        map_read != 0,
        scenario,
        scenario_read != 0,
        shorten != 0,
        out,
    );
    numbers::told(answer, value)
}
