// The program whole: from the bytes of the two files to the bytes that are printed, the plan shortened or not.
#![tactic(auto)]

ghost use Rattle.std.specs.Prelude.{◌≤◌};
ghost use Rattle.stores.specs.Writing.{Wrote};
ghost use Rattle.filing.specs.Filing.{file_of};
ghost use Rattle.print_room.specs.Printout.{print_room};
ghost use Rattle.handing.specs.Handing.{Hands};
ghost use Rattle.print_room.specs.Whole.{print_for};

// All that is printed, as far as there is room; answers how many bytes that takes, which are never more than 180,250.
pub fn print(
    short: bool,
    map: &[u8],
    mapped: bool,
    scenario: &[u8],
    listed: bool,
    out: &mut [u8],
) -> usize
    ensures { Wrote out.old 0 (print_for short (file_of mapped map.now) (file_of listed scenario.now)) out.new result
        × (result ≤ print_room) }
{
    if short {
        return program::program_short(map, mapped, scenario, listed, out);
    }
    program::program(map, mapped, scenario, listed, out)
}

// The same handed over: a list that is too short stays as it was.
pub fn program(
    short: bool,
    map: &[u8],
    mapped: bool,
    scenario: &[u8],
    listed: bool,
    out: &mut [u8],
) -> usize
    ensures { Hands (print_for short (file_of mapped map.now) (file_of listed scenario.now)) out.old out.new result }
{
    let mut room = [0u8; print_room::PRINT_BYTES];
    let n = print(short, map, mapped, scenario, listed, &mut room);
    handing::text(&room[..n], out)
}
