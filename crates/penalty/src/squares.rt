// Squares: 2*2 blocks of modules having same color.
ghost use Rattle.std.specs.Prelude.{◌≡◌, ◌+◌, ◌-◌, ◌*◌, ◌%◌, ◌<◌, ◌≤◌, ◌&&◌, eqb, length};
ghost use Rattle.standard.specs.Numbers.{one, sum, tabulate};
ghost use Rattle.standard.specs.Penalty.{squares};
ghost use Rattle.penalty.specs.Lines.{colours};

// The blocks of a grid.
pub(crate) fn all_squares(grid: &[u8], side: usize) -> u32
    requires { (1 ≤ side) × (side ≤ 177) × (length grid.now ≡ side * side) }
    ensures { (result ≡ sum (tabulate (side - 1) (squares side (colours grid.now)))) × (result ≤ 176 * side) }
{
    let mut result: u32 = 0;
    let last = side - 1;
    for y in 0..last {
        result += row_squares(grid, side, y);
    }
    result
}

// The blocks between row y and the next.
fn row_squares(grid: &[u8], side: usize, y: usize) -> u32
    requires { (y + 1 < side) × (side ≤ 177) × (length grid.now ≡ side * side) }
    ensures { (result ≡ squares side (colours grid.now) y) × (result ≤ 176) }
{
    let top = &grid[y * side..(y + 1) * side];
    let bottom = &grid[(y + 1) * side..(y + 2) * side];
    let mut result: u32 = 0;
    for (above, below) in top.windows(2).zip(bottom.windows(2)) {
        result += same_color(above[0], above[1], below[0], below[1]);
    }
    result
}

// 1 if four modules have the same color.
fn same_color(a: u8, b: u8, c: u8, d: u8) -> u32
    ensures { (result ≡ one (eqb (a % 2) (b % 2) && (eqb (a % 2) (c % 2) && eqb (a % 2) (d % 2)))) × (result ≤ 1) }
{
    let color = a % 2;
    (color == b % 2 && color == c % 2 && color == d % 2) as u32
}
