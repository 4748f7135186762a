// Playing a plan backwards.
ghost use Rattle.sejjekoru.specs.Reverse.{ReverseTells};

#[unsafe(no_mangle)]
pub extern "C" fn sejjekoru_reverse(list: &[u64], out: &mut [u64], value: &mut u64) -> u64
    ensures { ReverseTells list.now out.old result value.new out.new }
{
    let answer = reverse_list::reverse(list, out);
    numbers::told(answer, value)
}
