// An answer whose plan stands in a list, and its print: how much room every print has, and the bytes that are written there.
#![tactic(auto)]

ghost use Rattle.std.specs.Prelude.{◌≡◌};
ghost use Rattle.paper.specs.Program.{program_room};
ghost use Rattle.print_room.specs.Printout.{print_room, Within, Prints};

use docket::Refusal;

// Room for every print.
pub const PRINT_BYTES: usize = 22 * CROSSINGS + 26;

// Room for every plan that the program prints.
pub const CROSSINGS: usize = 8192;

// The numbers are the theorem's and the paper's: this function does nothing, its statement says it.
pub fn limits()
    ensures print { PRINT_BYTES ≡ print_room }
    ensures crossings { CROSSINGS ≡ program_room }
{}

// The answer, with the plan at the list's beginning where there is one.
pub fn print(answer: Result<u64, Refusal>, plan: &[u64], out: &mut [u8]) -> usize
    requires { Within answer plan.now }
    ensures { Prints answer plan.now out.old out.new result }
{
    match answer {
        Ok(m) => {
            let n = m as usize;
            printing::plan(&plan[..n], out)
        }
        Err(r) => printing::refusal(r, out),
    }
}
