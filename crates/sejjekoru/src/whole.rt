// The functions on the bytes of files: the program whole, the print of any plan, and reading a printed plan and reported names. For programs that
// only read files, call and write.
ghost use Rattle.sejjekoru.specs.Whole.{ProgramTells, PrintPlanTells, ReadPlanTells, ReadReportsTells};

use docket::Refusal;
use yard::Yard;

#[unsafe(no_mangle)]
pub extern "C" fn sejjekoru_program(
    map: &[u8],
    map_read: u64,
    scenario: &[u8],
    scenario_read: u64,
    shorten: u64,
    out: &mut [u8],
    value: &mut u64,
) -> u64
    ensures { ProgramTells map.now map_read scenario.now scenario_read shorten out.old result value.new out.new }
{
    let has = out.len();
    let needed = printout::program(
        shorten != 0,
        map,
        map_read != 0,
        scenario,
        scenario_read != 0,
        out,
    );
    numbers::told(handing::answer(needed, has), value)
}

#[unsafe(no_mangle)]
pub extern "C" fn sejjekoru_print_plan(plan: &[u64], out: &mut [u8], value: &mut u64) -> u64
    ensures { PrintPlanTells plan.now out.old result value.new out.new }
{
    if Yard::CROSSINGS < plan.len() {
        return numbers::told(Err(Refusal::Size), value);
    }
    let has = out.len();
    let needed = handing::plan(plan, out);
    numbers::told(handing::answer(needed, has), value)
}

#[unsafe(no_mangle)]
pub extern "C" fn sejjekoru_read_plan(file: &[u8], plan: &mut [u64], value: &mut u64) -> u64
    ensures { ReadPlanTells file.now plan.old result value.new plan.new }
{
    let answer = readback::plan(file, plan);
    numbers::told(answer, value)
}

#[unsafe(no_mangle)]
pub extern "C" fn sejjekoru_read_reports(file: &[u8], names: &mut [u64], value: &mut u64) -> u64
    ensures { ReadReportsTells file.now names.old result value.new names.new }
{
    let answer = readback::reports(file, names);
    numbers::told(answer, value)
}
