// Two plans compared. C is told which list's rest is handed back, and the number of equal leading crossings, which is its place in that list.
ghost use Rattle.sejjekoru.specs.Compare.{CompareTells};

#[unsafe(no_mangle)]
pub extern "C" fn sejjekoru_compare<'a>(
    first: &'a [u64],
    second: &'a [u64],
    differences: &mut [i64],
    longer: &mut u64,
    value: &mut u64,
) -> u64
    ensures { CompareTells first.now second.now differences.old result value.new longer.new differences.new }
{
    let mut number = 0;
    comparing::compare(first, second, differences, &mut number, value, longer);
    number
}
