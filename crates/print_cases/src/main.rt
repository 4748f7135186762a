// Prints the plan of the document's example, and refusals with a carried number and without.
#![tactic(auto)]

use docket::Refusal;
use std::io;

// The first bytes of what was written.
fn show(rt: &impl Print, out: &[u8], n: usize) -> io::Result<()> {
    if n <= out.len() {
        rt.write_all(&out[..n])?;
    }
    Ok(())
}

fn print_plan(rt: &impl Print, plan: &[u64]) -> io::Result<()> {
    let mut out = [0u8; 256];
    let n = printing::plan(plan, &mut out);
    show(rt, &out, n)
}

fn print_refusal(rt: &impl Print, r: Refusal) -> io::Result<()> {
    let mut out = [0u8; 64];
    let n = printing::refusal(r, &mut out);
    show(rt, &out, n)
}

fn main(rt: HostRuntime) -> io::Result<()> {
    let plan = [65538, 4294967297, 4295032835, 131073, 65536, 4295163905];
    print_plan(&rt, &plan)?;
    print_plan(&rt, &[18446744073709551615])?;
    print_refusal(&rt, Refusal::Crowd)?;
    print_refusal(&rt, Refusal::Room(10206))?;
    print_refusal(&rt, Refusal::BadMap(0))
}
