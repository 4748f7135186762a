// The map file read: its sides and the count of its bays or its first bad line, its cells numbered, its rails in their order, and
// the bay of a cell. A cell's number is 0 for a wall and one more than the bay's for a bay.
#![tactic(auto)]

ghost use Rattle.std.specs.Prelude.{◌≡◌, ◌+◌, ◌*◌, ◌≤◌, ◌<◌, ◌^◌, length};
ghost use Rattle.paper.specs.Map.{bay_letter};
ghost use Rattle.paper.specs.Text.{count};
ghost use Rattle.stores.specs.Writing.{Wrote};
ghost use Rattle.gridmap.specs.Cells.{letters, mark_of, count_with, numbering, number_in, beside_in, rail_of, rails_at_in, rails_in, cell_of, bay_found, Reads};

// The sides of a map and the count of its bays.
#[derive(Clone, Copy)]
pub struct Grid {
    pub height: u8,
    pub width: u8,
    pub bays: u16,
}

// The bays up to this letter.
fn counted(b: u8, bays: u16) -> u16
    requires { bays + 1 < 2 ^ 16 }
    ensures { (result ≡ count_with b bays) × (result ≤ bays + 1) }
{
    if sides::is_bay(b) { bays + 1 } else { bays }
}

// The number of a cell with this letter, so many bays before it.
fn mark(b: u8, bays: u16) -> u16
    requires { bays + 1 < 2 ^ 16 }
    ensures { result ≡ mark_of b bays }
{
    if sides::is_bay(b) { bays + 1 } else { 0 }
}

// The cells of a good map numbered; answers the count of its bays. No line before the rows has a letter of a row, and no line's
// end has one, so that they are just the letters of the file.
fn number(file: &[u8], cells: &mut [u16]) -> u16
    requires { length (letters file.now) ≤ 4096 }
    ensures { Wrote cells.old 0 (numbering 0 (letters file.now)) cells.new (length (letters file.now))
        × (result ≡ count bay_letter (letters file.now)) }
{
    let mut bays: u16 = 0;
    let mut n = 0;
    for &b in file {
        if sides::is_letter(b) {
            stores::store(cells, n, mark(b, bays));
            bays = counted(b, bays);
            n += 1;
        }
    }
    bays
}

// The map; its cells are numbered from the first on. A refused one changes none.
pub fn read(file: &[u8], cells: &mut [u16]) -> Result<Grid, u64>
    ensures { Reads file.now cells.old result cells.new }
{
    let found = sides::read(file);
    match found {
        Ok((height, width)) => {
            let bays = number(file, cells);
            Ok(Grid {
                height: height,
                width: width,
                bays: bays,
            })
        }
        Err(line) => Err(line),
    }
}

// The number of cell i of a map with so many cells.
fn number_at(cells: &[u16], size: usize, i: usize) -> u16
    ensures { result ≡ number_in cells.now size i }
{
    if i < size && i < cells.len() {
        cells[i]
    } else {
        0
    }
}

// That of the cell beside it, if it stands in the same row.
fn number_beside(cells: &[u16], size: usize, width: usize, i: usize) -> u16
    requires { (0 < width) × (i < 2 ^ 16) }
    ensures { result ≡ beside_in cells.now size width i }
{
    if i % width + 1 < width {
        number_at(cells, size, i + 1)
    } else {
        0
    }
}

// The rail between two cells, where both are bays.
fn put_rail(ends: &mut [u16], at: usize, a: u16, b: u16) -> usize
    requires { at + 2 < 2 ^ 63 }
    ensures { Wrote ends.old at (rail_of a b) ends.new result }
{
    if a == 0 || b == 0 {
        return at;
    }
    stores::store(ends, at, a - 1);
    stores::store(ends, at + 1, b - 1);
    at + 2
}

// The rails of which the cell is the lower bay: to the one beside it, then to the one below.
fn put_rails(
    cells: &[u16],
    size: usize,
    width: usize,
    i: usize,
    ends: &mut [u16],
    at: usize,
) -> usize
    requires { (0 < width) × (i + width < 2 ^ 17) × (i < 2 ^ 16) × (at + 4 < 2 ^ 63) }
    ensures { Wrote ends.old at (rails_at_in cells.now size width i) ends.new result }
{
    let lower = number_at(cells, size, i);
    let beside = number_beside(cells, size, width, i);
    let next = put_rail(ends, at, lower, beside);
    let below = number_at(cells, size, i + width);
    put_rail(ends, next, lower, below)
}

// The ends of the map's rails in their order, lower bay first; answers how many ends there are.
pub fn rails(grid: Grid, cells: &[u16], ends: &mut [u16]) -> usize
    ensures { Wrote ends.old 0 (rails_in cells.now grid.height grid.width) ends.new result }
{
    let width = grid.width as usize;
    let size = (grid.height as usize) * width;
    let mut at = 0;
    for i in 0..size {
        at = put_rails(cells, size, width, i, ends, at);
    }
    at
}

// The bay at column x and row y, from 0 at top left.
pub fn bay_in(grid: Grid, cells: &[u16], x: u32, y: u32) -> Option<u16>
    ensures { cell_of result ≡ bay_found cells.now grid.height grid.width x y }
{
    let width = grid.width as usize;
    let height = grid.height as usize;
    let column = x as usize;
    let row = y as usize;
    if column < width && row < height {
        let n = number_at(cells, height * width, row * width + column);
        if n == 0 {
            return None;
        }
        return Some(n - 1);
    }
    None
}
